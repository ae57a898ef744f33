//! The Toy world: a tool that is computed, so that runs in memory are honest by proof.

ghost use Rattle.std.specs.Prelude.{◌≡◌, ◌%◌, ◌^◌, ◌++◌, [], List, ℕ, IfOk, OnOk, codes, decimal, false, map, option_map, sum};
ghost use Rattle.std.specs.List.{flat_map};
ghost use Rattle.rx_base.specs.declared.digests.Digest.{Digest};
ghost use Rattle.rx_world.specs.declared.looks.Stamp.{Stamp};
ghost use Rattle.rx_world.specs.Toy.{first_error, toy_failure, toy_operation, toy_file, toy_line, toy_success, toy_tool, toy_tool-with_parents};

use crate::{Command, Exit, FileOut, Outcome, Tree, World};
use itoa::Buffer;
use rx_base::{Bytes, Items, NoMemory, RelPath, TryClone};
use std::alloc::Global;
use std::marker::{Brand, PhantomData};

/// What a Toy world's files hold, and whether reads give just that. A caller picks both.
pub trait Contents {
    /// The bytes of a file at a path under a stamp.
    ghost holds: { List ℕ → Stamp → List ℕ };

    /// The bytes of a blob by its digest.
    ghost blob: { Digest → List ℕ };

    /// Each read under a stamp gives `holds`.
    ghost honest: { Type 0 };
}

/// Contents of which nothing is known.
impl Contents for Brand {
    ghost holds = { λ path stamp. [] };

    ghost blob = { λ digest. [] };

    ghost honest = { ⊥ };
}

/// A world whose tool is computed, over contents that a caller picks. A farm of it names an operation
/// by the digest of its action, as `HASH/SIZE`.
pub struct Toy<K> {
    pub contents: PhantomData<K>,
}

impl<K: Contents> World for Toy<K> {
    ghost content = { K.holds };

    ghost blob = { K.blob };

    ghost operation = { toy_operation };

    ghost tool = { toy_tool };

    ghost parents_made = { toy_tool-with_parents };

    ghost stamps_honest = { K.honest };

    ghost tools_honest = { Unit {0} };
}

/// What the Toy world's tool makes of a tree, as [`World`] says.
///
/// Where a file begins with `#error`, the code is 1 and the error text names the first such file.
/// Else each output holds its own path on a line, and a line `PATH SIZE SUM` for each file of the
/// tree, where SUM is the sum of the file's bytes in 32 bits.
pub fn toy_run(alloc: Global, command: &Command, tree: &Tree) -> Result<Outcome, NoMemory>
    ensures { IfOk result (λ outcome. outcome ≡ toy_tool command.now tree.now) }
{
    match error_in(tree.files.as_slice()) {
        Some(file) => fail(alloc, file),
        None => succeed(alloc, command.outputs.as_slice(), tree.files.as_slice()),
    }
}

/// The first file that begins with `#error`.
fn error_in(files: &[FileOut]) -> Option<&FileOut>
    ensures { option_map (λ file. file.now.path) result ≡ first_error files.now }
{
    for file in files {
        if file.bytes.as_slice().starts_with(b"#error") {
            return Some(file);
        }
    }
    None
}

fn fail(alloc: Global, file: &FileOut) -> Result<Outcome, NoMemory>
    ensures { IfOk result (λ outcome. outcome ≡ toy_failure file.now.path) }
{
    let mut stderr = Vec::from_slice(alloc, b"error in ")?;
    stderr.extend_from_slice(file.path.as_str().as_bytes())?;
    stderr.push(b'\n')?;
    Ok(Outcome {
        exit: Exit {
            code: 1,
            stdout: Bytes::new(alloc),
            stderr: Bytes::from_vec(stderr),
        },
        files: Items::new(alloc),
    })
}

fn succeed(alloc: Global, outputs: &[RelPath], files: &[FileOut]) -> Result<Outcome, NoMemory>
    ensures { IfOk result (λ outcome. outcome ≡ toy_success outputs.now files.now) }
{
    let lines = lines_of(alloc, files)?;
    let mut made = Vec::with_capacity(alloc, outputs.len())?;
    for path in outputs {
        made.push(output_at(alloc, path, &lines)?)?;
    }
    Ok(Outcome {
        exit: Exit {
            code: 0,
            stdout: Bytes::new(alloc),
            stderr: Bytes::new(alloc),
        },
        files: Items::from_vec(made),
    })
}

fn output_at(alloc: Global, path: &RelPath, lines: &[u8]) -> Result<FileOut, NoMemory>
    ensures { IfOk result (λ file. file ≡ record {
      path = path.now;
      bytes = path.now ++ codes "\n" ++ lines.now;
      executable = false;
    }) }
{
    let mut bytes = Vec::from_slice(alloc, path.as_str().as_bytes())?;
    bytes.push(b'\n')?;
    bytes.extend_from_slice(lines)?;
    Ok(FileOut {
        path: path.try_clone(alloc)?,
        bytes: Bytes::from_vec(bytes),
        executable: false,
    })
}

fn lines_of(alloc: Global, files: &[FileOut]) -> Result<Vec<u8>, NoMemory>
    ensures { IfOk result (λ lines. lines.items ≡ flat_map toy_line files.now) }
{
    let mut lines = Vec::new(alloc);
    for file in files {
        push_line(&mut lines, file)?;
    }
    Ok(lines)
}

fn push_line(lines: &mut Vec<u8>, file: &FileOut) -> Result<(), NoMemory>
    ensures { OnOk result (lines.new.items ≡ lines.old.items ++ toy_line file.now) }
{
    lines.extend_from_slice(file.path.as_str().as_bytes())?;
    lines.push(b' ')?;
    push_number(lines, file.bytes.len() as u64)?;
    lines.push(b' ')?;
    push_number(lines, u64::from(sum_of(file.bytes.as_slice())))?;
    lines.push(b'\n')?;
    Ok(())
}

fn push_number(lines: &mut Vec<u8>, number: u64) -> Result<(), NoMemory>
    ensures { OnOk result (lines.new.items ≡ lines.old.items ++ decimal number) }
{
    let mut buffer = Buffer::new();
    lines.extend_from_slice(buffer.format(number).as_bytes())
}

/// The sum of the bytes in 32 bits.
fn sum_of(bytes: &[u8]) -> u32
    ensures { result ≡ sum bytes.now % 2 ^ 32 }
{
    let mut sum = 0u32;
    for byte in bytes {
        sum = sum.wrapping_add(u32::from(*byte));
    }
    sum
}
