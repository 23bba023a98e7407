//! Shelves in memory that hold texts, and the words of a command.
use mintc_text::{MemoryShelf, Name, Numbers, OutOfMemory};
use std::alloc::{AllocError, Global};

/// Files for a shelf, each a name and its bytes.
pub type Held = Vec<(Name, Vec<u8>)>;

/// A file for a shelf.
fn file_of(alloc: Global, name: &str, text: &[u8]) -> Result<(Name, Vec<u8>), OutOfMemory> {
    let bytes = Vec::from_slice(alloc, text)?;
    Ok((Name::new(alloc, name.as_bytes())?, bytes))
}

/// Adds a file to those for a shelf.
pub fn hold(alloc: Global, held: &mut Held, name: &str, text: &[u8]) -> Result<(), OutOfMemory> {
    held.push(file_of(alloc, name, text)?)?;
    Ok(())
}

/// Files of these texts for a shelf.
fn held_texts(alloc: Global, files: &[(&str, &str)]) -> Result<Held, OutOfMemory> {
    let mut held = Vec::new(alloc);
    for file in files {
        hold(alloc, &mut held, file.0, file.1.as_bytes())?;
    }
    Ok(held)
}

/// A shelf of these files, whose calls of these numbers fail.
pub fn shelf_of(
    alloc: Global,
    files: &[(&str, &str)],
    failing: &[u32],
) -> Result<MemoryShelf, OutOfMemory> {
    let failing = Vec::from_slice(alloc, failing)?;
    let held = held_texts(alloc, files)?;
    Ok(MemoryShelf::new(held, Numbers::new(failing)))
}

/// The words of a line.
pub fn words_of(alloc: Global, line: &str) -> Result<Vec<String>, AllocError> {
    let mut words = Vec::new(alloc);
    for word in line.split_whitespace() {
        words.push(String::from_str(alloc, word)?)?;
    }
    Ok(words)
}
