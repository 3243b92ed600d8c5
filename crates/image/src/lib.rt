// Images (Scope, "Image"): their table, and the questions to them.
#![tactic(auto)]

ghost use Rattle.std.specs.Prelude.{◌≡◌};
ghost use Rattle.image.specs.declared.LoadError.TheVariants.{BadSize};
ghost use Rattle.image.specs.Image.{kind_of, target_size, Aims};

use machine::SizeError;

pub mod questions;
pub mod table;

// An entry of an image's table: the kind of its target, and the first word and the number of words that its body fills there. The kind stays a number: any
// may stand in a table, and question 9 asks for it (`image/Image: entry_answer`).
#[derive(Clone, Copy)]
pub struct Entry {
    pub kind: u16,
    pub start: u32,
    pub words: u32,
}

// The targets of bodies, kinds 1 to 4: memory, page registers, R0 to R15, the words IC, SW, MK, PI, FT.
#[derive(Clone, Copy, PartialEq, Eq)]
pub enum Target {
    Memory,
    Pages,
    Registers,
    Control,
}

impl TryFrom<u16> for Target {
    type Error = LoadError;

    ghost try_from_gives = { Aims };

    fn try_from(kind: u16) -> Result<Target, LoadError> {
        match kind {
            1 => Ok(Target::Memory),
            2 => Ok(Target::Pages),
            3 => Ok(Target::Registers),
            4 => Ok(Target::Control),
            _ => Err(LoadError::BadKind),
        }
    }
}

impl Target {
    // Its words, with a memory of so many.
    pub(crate) fn size(self, memory: usize) -> usize
        ensures { result ≡ target_size memory (kind_of self) }
    {
        match self {
            Target::Memory => memory,
            Target::Pages => 512,
            Target::Registers => 16,
            Target::Control => 5,
        }
    }
}

// Why loading is refused: what the first question answered by "no" was about. Of the image: there are no two bytes for the
// number of entries, more than 64 entries, a table that is not whole; in an entry an unknown kind, no words or some outside the target,
// a word shared with an earlier entry of its kind; bodies that do not end the image.
#[derive(Clone, Copy, PartialEq, Eq)]
pub enum LoadError {
    BadSize(SizeError),
    NoCount,
    ManyEntries,
    ShortTable,
    BadKind,
    BadRange,
    SharedWord,
    BadBodies,
}

impl From<SizeError> for LoadError {
    ghost from_gives = { λ e r. r ≡ BadSize e };

    fn from(e: SizeError) -> LoadError {
        LoadError::BadSize(e)
    }
}
