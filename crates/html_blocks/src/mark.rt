//! The marks of elements, by their places.

ghost use Rattle.std.specs.Prelude.{◌≡◌, drop, false, nat_le, nat_lt, take, true};
ghost use Rattle.std.specs.Bool.{OnTrue};
ghost use Rattle.std.specs.List.Sorted.{IsPartitionPoint};
ghost use Rattle.html_blocks.specs.Marks as marks_spec;
ghost use Rattle.html_spec.specs.Blocks as blocks_spec;

use dita_doc::Mark;

/// The marks of a body, and whether their places never fall.
#[derive(Clone, Copy)]
pub(crate) struct Marks<'a> {
    marks: &'a [Mark],
    are_rising: bool,
    ghost rising: { are_rising ≡ true → marks_spec.AreRising marks.now },
}

impl<'a> Marks<'a> {
    ghost use Rattle.std.specs.Prelude.{◌≡◌, ◌==◌, length};
    ghost use Rattle.html_blocks.specs.Marks as marks_spec;
    ghost use Rattle.html_spec.specs.Blocks as blocks_spec;

    /// These marks.
    pub fn of(marks: &'a [Mark]) -> Marks<'a>
        ensures { result.marks.now ≡ marks.now }
    {
        Marks {
            marks,
            are_rising: are_rising(marks),
        }
    }

    /// Whether there are none.
    pub fn is_empty(&self) -> bool
        ensures { result ≡ (length self.now.marks.now == 0) }
    {
        self.marks.is_empty()
    }

    /// Those of the element at a place.
    pub fn at(&self, place: u32) -> ElementMarks<'a>
        ensures { marks_spec.texts_of result ≡ blocks_spec.marks_at self.now.marks.now place }
    {
        ElementMarks {
            among: self.among(place),
            place,
        }
    }

    // Some that hold all of the element at a place.
    fn among(&self, place: u32) -> &'a [Mark]
        ensures { blocks_spec.marks_at result.now place
            ≡ blocks_spec.marks_at self.now.marks.now place }
    {
        if self.are_rising {
            marks_halving(self.marks, place)
        } else {
            self.marks
        }
    }
}

/// The marks of the element at a place, among those of others.
#[derive(Clone, Copy)]
pub(crate) struct ElementMarks<'a> {
    among: &'a [Mark],
    place: u32,
}

impl<'a> ElementMarks<'a> {
    ghost use Rattle.std.specs.Prelude.{◌≡◌, ◌<◌, ◌==◌, [], ◌∷◌, length, IfNone, IfSome};
    ghost use Rattle.html_blocks.specs.Marks as marks_spec;

    /// Whether there are none.
    pub fn is_empty(self) -> bool
        ensures { result ≡ (length (marks_spec.texts_of self.entry) == 0) }
    {
        self.split_first().is_none()
    }

    /// The text of the first of them, and the others.
    pub fn split_first(self) -> Option<(&'a str, ElementMarks<'a>)>
        ensures none { IfNone result (marks_spec.texts_of self.entry ≡ []) }
        ensures some { IfSome result (λ found. marks_spec.texts_of self.entry
            ≡ found.0.now ∷ marks_spec.texts_of found.1) }
        ensures fewer { IfSome result (λ found. length found.1.among.now
            < length self.entry.among.now) }
    {
        let mut left = self.among;
        while let Some((mark, among)) = left.split_first() {
            if mark.place == self.place {
                return Some((
                    mark.text.as_str(),
                    ElementMarks {
                        among,
                        place: self.place,
                    },
                ));
            }
            left = among;
        }
        None
    }
}

// Whether no mark stands before the one before it.
fn are_rising(marks: &[Mark]) -> bool
    ensures { OnTrue result (marks_spec.AreRising marks.now) }
{
    for at in 1..marks.len() {
        if marks[at].place < marks[at - 1].place {
            return false;
        }
    }
    true
}

// The marks at a place, of marks whose places never fall.
fn marks_halving(marks: &[Mark], place: u32) -> &[Mark]
    ensures { marks_spec.AreRising marks.now
        → blocks_spec.marks_at result.now place ≡ blocks_spec.marks_at marks.now place }
{
    let rest = marks_behind(marks, count_before(marks, place));
    marks_before(rest, count_within(rest, place))
}

// How many stand before a place.
fn count_before(marks: &[Mark], place: u32) -> usize
    ensures { marks_spec.AreRising marks.now → IsPartitionPoint
        (λ mark. nat_lt mark.place place ≡ true) (λ mark. nat_lt mark.place place ≡ false)
        marks.now result }
{
    marks.partition_point(|mark| mark.place < place)
}

// How many stand before a place, or there.
fn count_within(marks: &[Mark], place: u32) -> usize
    ensures { marks_spec.AreRising marks.now → IsPartitionPoint
        (λ mark. nat_le mark.place place ≡ true) (λ mark. nat_le mark.place place ≡ false)
        marks.now result }
{
    marks.partition_point(|mark| mark.place <= place)
}

fn marks_behind(marks: &[Mark], count: usize) -> &[Mark]
    ensures { result.now ≡ drop count marks.now }
{
    marks.get(count..).unwrap_or(&[])
}

fn marks_before(marks: &[Mark], count: usize) -> &[Mark]
    ensures { result.now ≡ take count marks.now }
{
    marks.get(..count).unwrap_or(marks)
}
