// The site: where building stands between two commands.
ghost use Rattle.std.specs.Prelude.{◌≡◌, ◌≤◌};
ghost use Rattle.path_storing.specs.Sites.{Few, grown_by, start_of};

use path_drawing::{Pen, fresh};

// How many segments there are, how many fields they have, and how many numbers their tables. Kinds, running lengths and command numbers
// are one a segment.
#[derive(Clone, Copy, Debug, PartialEq, Eq)]
pub struct Sizes {
    pub segments: usize,
    pub fields: usize,
    pub tables: usize,
}

impl Sizes {
    // With one segment more, of `own` fields and with `more` numbers in its table.
    pub(crate) fn grown(self, own: usize, more: usize) -> Sizes
        requires { Few self × (own ≤ 11) × (more ≤ 33) }
        ensures { result ≡ grown_by self own more }
    {
        Sizes {
            segments: self.segments + 1,
            fields: self.fields + own,
            tables: self.tables + more,
        }
    }
}

#[derive(Clone, Copy)]
pub struct Site {
    pub pen: Pen,
    // The running length so far, finite, in path units.
    pub length: f32,
    // What is drawn so far.
    pub sizes: Sizes,
}

// The site before the first command.
#[tactic(auto, unfolding(crate::specs::Sites::start_of, floats::specs::Floats::zero_f))]
pub fn start() -> Site
    ensures { result ≡ start_of }
{
    Site {
        pen: fresh(),
        length: 0.0,
        sizes: Sizes {
            segments: 0,
            fields: 0,
            tables: 0,
        },
    }
}
