// A point file as the source of a tree: judged as build judges it, with its lookup.
#![tactic(auto)]

ghost use Rattle.source.specs.Source.{Sourced};

use points::file::PointFile;
use points::judge::parse_mascon_bytes;
use runs::{Form, fill, form_of, room};
use rym1::Cause;

// The lookup of a file that 1 to 7 pass, or why no tree is made of it.
// Two records name one cell where fewer cells are occupied.
fn read_accepted(words: &mut [u32], file: PointFile<'_>) -> Result<Form, Cause>
    ensures { Sourced file.entry.bytes.now words.old result words.new }
{
    let form = form_of(file);
    if words.len() < room(form, file.grid()) {
        return Err(Cause::ScratchShort);
    }
    if fill(words, file, form) < file.count() {
        return Err(Cause::CellTwice);
    }
    Ok(form)
}

// The form in which the file's lookup stands in the words, or why no tree is made of it: 1 to 8, or 21.
pub fn read_source(words: &mut [u32], file: &[u8]) -> Result<Form, Cause>
    ensures { Sourced file.now words.old result words.new }
{
    let accepted = parse_mascon_bytes(file)?;
    read_accepted(words, accepted)
}
