// What the programs that run cases print: rows of bytes and numbers, and what a call answered.
#![tactic(auto)]

use refusals::Refusal;
use std::fmt;
use std::fmt::Display;

// Each byte as two digits, with a space before it.
#[derive(Drop)]
pub struct Bytes<'a>(pub &'a [u8]);

impl Display for Bytes<'_> {
    fn fmt<W: fmt::Write>(&self, f: &mut fmt::Formatter<W>) -> fmt::Result {
        for byte in self.0 {
            write!(f, " {byte:02x}")?;
        }
        Ok(())
    }
}

// Each number, with a space before it.
#[derive(Drop)]
pub struct Numbers<'a>(pub &'a [u64]);

impl Display for Numbers<'_> {
    fn fmt<W: fmt::Write>(&self, f: &mut fmt::Formatter<W>) -> fmt::Result {
        for n in self.0 {
            write!(f, " {n}")?;
        }
        Ok(())
    }
}

// A refusal by its number.
#[derive(Drop)]
pub struct Refused(pub Refusal);

impl Display for Refused {
    fn fmt<W: fmt::Write>(&self, f: &mut fmt::Formatter<W>) -> fmt::Result {
        write!(f, "refused {}", self.0.number())
    }
}

// What a call answered, or its refusal.
#[derive(Drop)]
pub struct Outcome<T>(pub Result<T, Refusal>);

impl<T: Display> Display for Outcome<T> {
    fn fmt<W: fmt::Write>(&self, f: &mut fmt::Formatter<W>) -> fmt::Result {
        match &self.0 {
            Ok(answer) => write!(f, "{answer}"),
            Err(why) => write!(f, "{}", Refused(*why)),
        }
    }
}
