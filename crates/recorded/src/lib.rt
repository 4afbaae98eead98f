// What the two programs that run recorded calls share: their words, the files that these name, and how values are written.
#![tactic(auto)]

ghost use Rattle.std.specs.Prelude.{◌≤◌, IfOk, IfSome, Some, length};
ghost use Rattle.recorded.specs.Text.{hex_text, numbers_text};

use std::rt::{Env, Files};
use std::{fmt, io};

// As many calls as a program runs.
pub const CALLS: usize = 1000;

// What fills a buffer before a call: other values than zero.
pub const BYTE: u8 = 165;

pub const CELL: i32 = -1515870811;

// Bytes as two hexadecimal digits each; `-` where there is none.
#[derive(Clone, Copy)]
pub struct Hex<'a> {
    pub bytes: &'a [u8],
}

impl fmt::Display for Hex<'_> {
    ghost output = { λ h. Some (hex_text h.bytes.now) };

    fn fmt<W: fmt::Write>(&self, f: &mut fmt::Formatter<W>) -> fmt::Result {
        if self.bytes.is_empty() {
            return f.write_str("-");
        }
        for byte in self.bytes {
            write!(f, "{:x}{:x}", byte / 16, byte % 16)?;
        }
        Ok(())
    }
}

// Numbers with commas between them.
#[derive(Clone, Copy)]
pub struct Numbers<'a> {
    pub numbers: &'a [i32],
}

impl fmt::Display for Numbers<'_> {
    ghost output = { λ n. Some (numbers_text n.numbers.now) };

    fn fmt<W: fmt::Write>(&self, f: &mut fmt::Formatter<W>) -> fmt::Result {
        let Some((first, rest)) = self.numbers.split_first() else {
            return Ok(());
        };
        write!(f, "{first}")?;
        for number in rest {
            write!(f, ",{number}")?;
        }
        Ok(())
    }
}

// Prints word k of the program's arguments and hands it back.
pub fn print_word<'a>(rt: &(impl Env + Print), k: usize, room: &'a mut [u8]) -> io::Result<&'a [u8]>
    ensures { IfOk result (λ word. length word.now ≤ length room.old) }
{
    let word = input::word(rt, k, room).unwrap_or(&[]);
    rt.write_all(word)?;
    Ok(word)
}

// The file that word k names; none where it cannot be opened.
pub fn load<'a>(
    rt: &(impl Env + Files),
    k: usize,
    room: &'a mut [u8],
) -> io::Result<Option<&'a [u8]>>
    ensures { IfOk result (λ file. IfSome file (λ bytes. length bytes.now ≤ length room.old)) }
{
    let mut name = [0u8; input::ROOM];
    let name = input::word(rt, k, &mut name).unwrap_or(&[]);
    input::load(rt, name, room)
}
