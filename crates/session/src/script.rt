// The lines of a script: the four bytes of each, and what they say.
ghost use Rattle.std.specs.Prelude.{◌≡◌};
ghost use Rattle.model.specs.Model as Model;
ghost use Rattle.session.specs.Line.{bytes_of, Kinds, Says};

use sheet::refusal::Fault;

// The kinds of a line, its first byte.
const ENTER: u8 = 0x10;

const TAKE_BACK: u8 = 0x11;

const READ: u8 = 0x12;

const ASK: u8 = 0x13;

const WHY: u8 = 0x14;

// A line as it stands in a script: its kind, and the bytes A B C.
#[derive(Clone, Copy)]
pub struct LineBytes {
    pub k: u8,
    pub a: u8,
    pub b: u8,
    pub c: u8,
}

// What a line says. The oldest entry is at place 0.
#[derive(Clone, Copy)]
pub enum Line {
    Enter { variable: u8, value: u8, desk: u8 },
    TakeBack,
    Read { place: u8 },
    Ask,
    Why,
}

impl Line {
    // How many of the bytes A B C it uses.
    #[tactic(auto, unfolding(model::specs::Model::used))]
    fn used(self) -> u8
        ensures { result ≡ Model.used (bytes_of self).k }
    {
        match self {
            Line::Enter { .. } => 3,
            Line::Read { .. } => 1,
            Line::TakeBack | Line::Ask | Line::Why => 0,
        }
    }
}

impl LineBytes {
    // What the bytes say by their kind, whatever stands in the spare ones.
    fn by_kind(self) -> Result<Line, Fault>
        ensures { Kinds self result }
    {
        match self.k {
            ENTER => Ok(Line::Enter {
                variable: self.a,
                value: self.b,
                desk: self.c,
            }),
            TAKE_BACK => Ok(Line::TakeBack),
            READ => Ok(Line::Read { place: self.a }),
            ASK => Ok(Line::Ask),
            WHY => Ok(Line::Why),
            _ => Err(Fault::LineUnknown),
        }
    }

    // What the bytes say: nothing where the kind is none of the five, or a spare byte is not 0.
    pub fn line(self) -> Result<Line, Fault>
        ensures { Says self result }
    {
        let line = self.by_kind()?;
        if sheet::spare_set(
            line.used(),
            u16::from(self.a),
            u16::from(self.b),
            u16::from(self.c),
        ) {
            return Err(Fault::LineUnknown);
        }
        Ok(line)
    }
}
