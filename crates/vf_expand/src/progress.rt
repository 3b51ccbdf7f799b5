//! How far a page was expanded.
ghost use Rattle.std.specs.Prelude.{◌≡◌, ◌<◌, ◌-◌, true, false};
ghost use Rattle.vf_expand.specs.Limits as limits;

// How many flat commands a page may have.
const MAX_FLAT_COMMANDS: u32 = 16777216;

/// How far a page was expanded: the last step comes from the page's own command at `at`, `budget`
/// flat commands may still be given, and the last step gave a character where it is marked.
#[derive(Clone, Copy)]
pub struct Progress {
    pub at: usize,
    pub budget: u32,
    pub marked: bool,
}

impl Progress {
    /// At a page's first command.
    pub fn at_first(at: usize) -> Progress
        ensures { result ≡ record { at = at; budget = limits.MAX_FLAT_COMMANDS; marked = false } }
    {
        Progress {
            at,
            budget: MAX_FLAT_COMMANDS,
            marked: false,
        }
    }

    /// After a flat command.
    #[inline(always)]
    pub fn after_flat(self, at: usize, marked: bool) -> Progress
        requires { 0 < self.budget }
        ensures { result ≡ record { at = at; budget = self.budget - 1; marked = marked } }
    {
        Progress {
            at,
            budget: self.budget - 1,
            marked,
        }
    }

    /// At the page's end, or before a command that asks for its font or that stops the page.
    #[inline(always)]
    pub fn halted_at(self, place: usize) -> Progress
        ensures { result ≡ record self { at = place; marked = false } }
    {
        Progress {
            at: place,
            marked: false,
            ..self
        }
    }
}
