//! The words of compile commands as they are read, in words.

use rx_base::{NoMemory, RelPath, Text};
use rx_cppflags::Reading;
use rx_rows::Answer;

/// A bar, and then paths.
pub(crate) fn show_paths(answer: &mut Answer, paths: &[RelPath]) -> Result<(), NoMemory> {
    answer.word("|")?;
    for path in paths {
        answer.word(path.as_str())?;
    }
    Ok(())
}

/// A bar, and then texts.
fn show_texts(answer: &mut Answer, texts: &[Text]) -> Result<(), NoMemory> {
    answer.word("|")?;
    for text in texts {
        answer.word(text.as_str())?;
    }
    Ok(())
}

/// A reading: the source, directories for quoted names, directories for all, forced files, system roots,
/// outputs and the language; or the word that keeps the command here, and outputs.
pub(crate) fn show_reading(answer: &mut Answer, reading: &Reading) -> Result<(), NoMemory> {
    match reading {
        Reading::LocalOnly { word, outputs } => {
            answer.word("kept")?;
            answer.text(word.as_str().as_bytes())?;
            show_paths(answer, outputs.as_slice())
        }
        Reading::Compile {
            source,
            quote_dirs,
            dirs,
            forced,
            walked: _,
            sysroots,
            outputs,
            is_c,
        } => {
            answer.word(source.as_str())?;
            show_paths(answer, quote_dirs.as_slice())?;
            show_paths(answer, dirs.as_slice())?;
            show_texts(answer, forced.as_slice())?;
            show_paths(answer, sysroots.as_slice())?;
            show_paths(answer, outputs.as_slice())?;
            answer.word(if *is_c { "| C" } else { "| C++" })
        }
    }
}

/// The texts whose ways lead to what words name; none of a command that is kept here.
pub(crate) fn show_walked(answer: &mut Answer, reading: &Reading) -> Result<(), NoMemory> {
    if let Reading::Compile { walked, .. } = reading {
        for text in walked.as_slice() {
            answer.word(text.as_str())?;
        }
    }
    Ok(())
}
