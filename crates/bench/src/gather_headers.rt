//! The source tree of `bench gather`, in memory: one source, and headers of some 40,000 bytes, each with ten includes. It
//! tells nothing.

ghost use Rattle.std.specs.Prelude.{◌≡◌, ◌≤◌, None};
ghost use Rattle.rx_world.specs.Causes.{Rose};

use crate::fault::Fault;
use rx_base::{Bytes, Items, RelPath, TryClone};
use rx_world::{Failed, Found, Look, Refused, Sources, Stamp, Toy};
use std::alloc::{AllocError, Global};
use std::collections::BTreeMap;
use std::marker::Brand;

/// How many headers a directory has.
const DIRECTORY: u32 = 30;

/// How many headers a file includes.
const INCLUDES: u32 = 10;

/// How often the code stands in a header, so that it has some 40,000 bytes.
const REPEATS: u32 = 49;

/// What stands in a header below its includes, again and again.
const CODE: &str = "/// Tells whether the buffer holds as many elements as the caller asks for, and
/// takes more memory where it doesn't. Elements that are there stay where they are.
template <typename Element, typename Allocator = std::allocator<Element>>
class Buffer : private Allocator {
 public:
  explicit Buffer(std::size_t capacity) : begin_(nullptr), end_(nullptr), capacity_(capacity) {}
  bool reserve(std::size_t count) { return count <= capacity_ || grow(count * 2 + 1); }
  /* The name is told in messages alone: \"buffer\", or 'b' where there is no room. */
  const char *name() const { return \"buffer\"; }
#if defined(NDEBUG)
  void check() const {}
#else
  void check() const { assert(begin_ <= end_ && std::size_t(end_ - begin_) <= capacity_); }
#endif
 private:
  Element *begin_, *end_;
  std::size_t capacity_;
};

";

/// Files by their paths. Whatever stands above one is a directory.
#[derive(Drop)]
pub struct Headers {
    alloc: Global,
    files: BTreeMap<RelPath, Bytes>,
    dirs: BTreeMap<RelPath, ()>,
    faults: u64,
}

/// The name of a header, as an include has it.
fn name_of(alloc: Global, number: u32) -> Result<String, AllocError> {
    format!(in alloc; "library{}/header{number}.h", number / DIRECTORY)
}

/// The text of a header of so many: a guard, ten includes and code. The headers that it includes are
/// the next ones in a tree of ten branches, so that the first reaches all.
fn header_text(alloc: Global, number: u32, count: u32) -> Result<String, AllocError> {
    let mut text = format!(in alloc; "#ifndef HEADER_{number}\n#define HEADER_{number}\n")?;
    let first = number.wrapping_mul(INCLUDES).wrapping_add(1);
    for step in 0..INCLUDES {
        let other = first.wrapping_add(step) % count.max(1);
        let line = format!(in alloc; "#include \"{}\"\n", name_of(alloc, other)?)?;
        text.push_str(line.as_str())?;
    }
    for _ in 0..REPEATS {
        text.push_str(CODE)?;
    }
    text.push_str("#endif\n")?;
    Ok(text)
}

impl Headers {
    /// So many headers, and a source that includes the first.
    pub fn new(alloc: Global, count: u32) -> Result<Headers, Fault> {
        let mut headers = Headers {
            alloc,
            files: BTreeMap::new(alloc),
            dirs: BTreeMap::new(alloc),
            faults: 0,
        };
        headers.put("project/src/main.cc", "#include \"library0/header0.h\"\n")?;
        for number in 0..count {
            let path = format!(in alloc; "project/include/{}", name_of(alloc, number)?)?;
            let text = header_text(alloc, number, count)?;
            headers.put(path.as_str(), text.as_str())?;
        }
        Ok(headers)
    }

    fn put(&mut self, path: &str, text: &str) -> Result<(), Fault> {
        let path = RelPath::read(self.alloc, path)?;
        for above in path.prefixes(self.alloc)?.into_vec() {
            self.dirs.insert(above, ())?;
        }
        let bytes = Bytes::copy_of(self.alloc, text.as_bytes())?;
        self.files.insert(path, bytes)?;
        Ok(())
    }

    fn fault(&mut self) -> Failed
        ensures later { self.old.faults ≤ self.new.faults }
        ensures rose { Rose self.old.faults self.new.faults }
    {
        self.faults = self.faults.saturating_add(1);
        Failed
    }
}

/// The stamp of a file with these bytes.
fn stamp_of(bytes: &Bytes) -> Stamp {
    Stamp {
        size: bytes.len() as u64,
        mark: 1,
    }
}

/// The look of a file with these bytes.
fn file(bytes: &Bytes) -> Look {
    Look::File {
        stamp: stamp_of(bytes),
        executable: false,
    }
}

impl Sources<Toy<Brand>> for Headers {
    ghost listed = { λ s. None };

    ghost keeps = { λ s. Unit {0} };

    ghost given = { λ s. None };

    ghost faults = { λ s. s.faults };

    fn look(&mut self, path: &RelPath) -> Result<Look, Failed> {
        match self.files.get(path) {
            Some(bytes) => Ok(file(bytes)),
            None if self.dirs.contains_key(path) => Ok(Look::Dir),
            None => Ok(Look::Absent),
        }
    }

    fn read(&mut self, path: &RelPath) -> Result<(Look, Bytes), Refused> {
        match self.files.get(path) {
            Some(bytes) => {
                let look = Look::File {
                    stamp: stamp_of(bytes),
                    executable: false,
                };
                Ok((look, bytes.try_clone(self.alloc)?))
            }
            None => Err(Refused::from(self.fault())),
        }
    }

    fn list(&mut self, under: &RelPath, most: usize) -> Result<Items<Found>, Refused> {
        let mut found = Items::new(self.alloc);
        for (path, bytes) in &self.files {
            if (path == under || path.is_below(under)) && found.len() <= most {
                found.push(Found {
                    path: path.try_clone(self.alloc)?,
                    look: file(bytes),
                })?;
            }
        }
        Ok(found)
    }
}
