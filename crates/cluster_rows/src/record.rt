// Rows, as lines of a text tell them.
use call_table::{Bytes, Named, Names, NoMemory};
use rv_asm::assemble;
use std::alloc::Global;
use std::mem;

/// The images of the programs so far; the script; what is wanted, and in which form; the line that is being told, and its text.
#[derive(Drop)]
pub struct Record {
    pub files: Names,
    pub script: Bytes,
    pub wanted: Bytes,
    pub form: String,
    head: String,
    text: Bytes,
}

/// The image of a text. A text that is no program gives an empty file.
fn image_of(alloc: Global, name: &str, text: &[u8]) -> Result<Named, NoMemory> {
    let name = Bytes::from_slice(alloc, name.as_bytes())?;
    let bytes = match assemble(alloc, text) {
        Ok(file) => file,
        Err(_) => Bytes::new(alloc),
    };
    Ok(Named { name, bytes })
}

impl Record {
    /// Nothing is told.
    pub fn new(alloc: Global) -> Record {
        Record {
            files: Names::new(alloc),
            script: Bytes::new(alloc),
            wanted: Bytes::new(alloc),
            form: String::new(alloc),
            head: String::new(alloc),
            text: Bytes::new(alloc),
        }
    }

    /// A line of text more.
    pub fn add_text(&mut self, text: &str) -> Result<(), NoMemory> {
        self.text.push_slice(text.as_bytes())?;
        self.text.push(b'\n')?;
        Ok(())
    }

    /// Takes what was told up to here, and begins with another line.
    pub fn begin(&mut self, alloc: Global, line: &str) -> Result<(), NoMemory> {
        let text = mem::replace(&mut self.text, Bytes::new(alloc));
        let head = mem::replace(&mut self.head, String::from_str(alloc, line)?);
        let (word, rest) = head.as_str().split_once(' ').unwrap_or((head.as_str(), ""));
        match word {
            "program" => self.files.push(image_of(alloc, rest, text.as_slice())?)?,
            "script" => self.script = text,
            "report" | "parts" | "events" | "counts" => {
                self.wanted = text;
                self.form = head;
            }
            _ => {}
        }
        Ok(())
    }
}
