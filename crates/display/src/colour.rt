// Levels run from 0 to 15, and three of them make a colour; a target is what was drawn, in bytes.
ghost use Rattle.std.specs.Prelude.{◌≡◌, ◌<◌, ◌≤◌, Some};
ghost use Rattle.display.specs.Colours.{colour_of, error_of, level_of, levels_of, shown_levels, squared, target_by};
ghost use Rattle.display.specs.Texts.{colour_text};

use std::fmt;

// A wanted colour, as it was drawn.
#[derive(Clone, Copy, Debug, PartialEq, Eq)]
pub struct Target {
    pub red: u8,
    pub green: u8,
    pub blue: u8,
}

// A wanted colour, as a screen can show it. The fields are any bytes: a bound in the type would ask more of callers, who may give any.
#[derive(Clone, Copy, Debug, PartialEq, Eq)]
pub struct Levels {
    pub red: u8,
    pub green: u8,
    pub blue: u8,
}

// A colour by its number. Its text is three small hexadecimal digits: red, green, blue.
#[derive(Clone, Copy, Debug, PartialEq, Eq)]
pub struct Colour(pub u16);

pub fn level(byte: u8) -> u8
    ensures { result ≡ level_of byte }
{
    byte / 16
}

// Red, green and blue, as a target's bytes stand in a row.
impl From<[u8; 3]> for Target {
    ghost from_gives = { λ bytes target. target ≡ target_by bytes };

    fn from(bytes: [u8; 3]) -> Target {
        let [red, green, blue] = bytes;
        Target { red, green, blue }
    }
}

impl Target {
    // A method and no From: callers read `target.levels()`, and an impl beside it would say the same twice.
    pub fn levels(self) -> Levels
        ensures { result ≡ levels_of self }
    {
        Levels {
            red: level(self.red),
            green: level(self.green),
            blue: level(self.blue),
        }
    }
}

impl Levels {
    // The levels of a colour. Not From<u16>, which would offer it for numbers that are no colours.
    pub(crate) fn of(colour: u16) -> Levels
        ensures { result ≡ shown_levels colour }
    {
        Levels {
            red: (colour / 256) as u8,
            green: (colour / 16 % 16) as u8,
            blue: (colour % 16) as u8,
        }
    }

    // The colour of these levels.
    pub(crate) fn colour(self) -> u16
        requires { (self.red < 16) × ((self.green < 16) × (self.blue < 16)) }
        ensures { result ≡ colour_of self.red self.green self.blue }
    {
        256 * u16::from(self.red) + 16 * u16::from(self.green) + u16::from(self.blue)
    }

    // The error of a pixel that shows the colour; at most 675 where these are levels and that is a colour.
    pub fn error(self, colour: u16) -> u32
        ensures value { result ≡ error_of self colour }
        ensures bound { self.red < 16 → self.green < 16 → self.blue < 16 → colour < 4096 → result ≤ 675 }
    {
        let shown = Levels::of(colour);
        square(self.red, shown.red)
            + square(self.green, shown.green)
            + square(self.blue, shown.blue)
    }
}

fn square(a: u8, b: u8) -> u32
    ensures value { result ≡ squared a b }
    ensures fits { result ≤ 65025 }
    ensures bound { a < 16 → b < 16 → result ≤ 225 }
{
    // Signed: with abs_diff an error takes 26 instructions in place of 17, one error for each bid of a line. The benchmark's aim, a ratio
    // of at most 1.3, is met by this form.
    let difference = i32::from(a) - i32::from(b);
    (difference * difference) as u32
}

impl fmt::Display for Colour {
    ghost output = { λ colour. Some (colour_text colour) };

    fn fmt<W: fmt::Write>(&self, f: &mut fmt::Formatter<W>) -> fmt::Result {
        write!(f, "{:03x}", self.0 % 4096)
    }
}
