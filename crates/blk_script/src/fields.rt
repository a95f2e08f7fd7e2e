// The fields of a line, one by one.
ghost use Rattle.std.specs.Prelude.{◌≡◌, ◌≤◌, ◌+◌, [], ◌∷◌, length, position, MatchResult};
ghost use Rattle.blk_script.specs.Fields.{is_space, line_fields, fields_left, length_left, AreFields, LacksFields, SplitsField};

use crate::LineFault;
use memchr::memchr;

/// The fields of a line that are left; none after the last.
#[derive(Clone, Copy)]
pub struct Fields<'l> {
    pub left: Option<&'l [u8]>,
}

// Where the first space is.
fn first_space(line: &[u8]) -> Option<usize>
    ensures { result ≡ position is_space line.now }
{
    memchr(b' ', line)
}

/// The first field of a line, and the others.
pub fn first_field(line: &[u8]) -> (&[u8], Fields<'_>)
    ensures fields { line_fields line.now ≡ result.0.now ∷ fields_left result.1 }
    ensures within { length result.0.now + length_left result.1 ≤ length line.now }
{
    match first_space(line) {
        Some(end) => {
            let left = Some(&line[end + 1..]);
            (&line[..end], Fields { left })
        }
        None => (line, Fields { left: None }),
    }
}

impl<'l> Fields<'l> {
    /// The next field, and those after it.
    fn next(self) -> Result<(&'l [u8], Fields<'l>), LineFault>
        ensures { MatchResult result (λ next. SplitsField self.entry next.0.now next.1) (λ why. (why ≡ LineFault.FieldCount) × (fields_left self.entry ≡ [])) }
    {
        match self.left {
            Some(left) => Ok(first_field(left)),
            None => Err(LineFault::FieldCount),
        }
    }

    /// No field, where none is left.
    pub fn none(self) -> Result<(), LineFault>
        ensures { MatchResult result (λ u. AreFields self.entry []) (LacksFields self.entry 0) }
    {
        match self.left {
            Some(_) => Err(LineFault::FieldCount),
            None => Ok(()),
        }
    }

    /// The one field that is left.
    pub fn one(self) -> Result<&'l [u8], LineFault>
        ensures { MatchResult result (λ a. AreFields self.entry (a.now ∷ [])) (LacksFields self.entry 1) }
    {
        let (a, others) = self.next()?;
        others.none()?;
        Ok(a)
    }

    /// The two fields that are left.
    pub fn two(self) -> Result<(&'l [u8], &'l [u8]), LineFault>
        ensures { MatchResult result (λ f. AreFields self.entry (f.0.now ∷ f.1.now ∷ [])) (LacksFields self.entry 2) }
    {
        let (a, others) = self.next()?;
        let b = others.one()?;
        Ok((a, b))
    }

    /// The three fields that are left.
    pub fn three(self) -> Result<(&'l [u8], &'l [u8], &'l [u8]), LineFault>
        ensures { MatchResult result (λ f. AreFields self.entry (f.0.now ∷ f.1.now ∷ f.2.now ∷ [])) (LacksFields self.entry 3) }
    {
        let (a, others) = self.next()?;
        let (b, c) = others.two()?;
        Ok((a, b, c))
    }

    /// The four fields that are left.
    pub fn four(self) -> Result<(&'l [u8], &'l [u8], &'l [u8], &'l [u8]), LineFault>
        ensures { MatchResult result (λ f. AreFields self.entry (f.0.now ∷ f.1.now ∷ f.2.now ∷ f.3.now ∷ [])) (LacksFields self.entry 4) }
    {
        let (a, others) = self.next()?;
        let (b, c, d) = others.three()?;
        Ok((a, b, c, d))
    }
}
