// Codes and previews as text.
ghost use Rattle.std.specs.Prelude.{Some};
ghost use Rattle.lines.specs.Texts.{codes_text, preview_text};

use display::Colour;
use std::fmt;

// Each code in decimal, after a space.
#[derive(Clone, Copy)]
pub struct Codes<'a>(pub &'a [u8]);

// Each colour as its three digits, after a space.
#[derive(Clone, Copy)]
pub struct Preview<'a>(pub &'a [u16]);

impl fmt::Display for Codes<'_> {
    ghost output = { λ line. Some (codes_text line.0.now) };

    fn fmt<W: fmt::Write>(&self, f: &mut fmt::Formatter<W>) -> fmt::Result {
        for code in self.0 {
            write!(f, " {code}")?;
        }
        Ok(())
    }
}

impl fmt::Display for Preview<'_> {
    ghost output = { λ line. Some (preview_text line.0.now) };

    fn fmt<W: fmt::Write>(&self, f: &mut fmt::Formatter<W>) -> fmt::Result {
        for colour in self.0 {
            write!(f, " {}", Colour(*colour))?;
        }
        Ok(())
    }
}
