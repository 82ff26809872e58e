ghost use Rattle.std.specs.Prelude.{◌≡◌};
ghost use Rattle.ses_report.specs.Refusals as spec;

use aw_cell::Text;

/// What a refusal says beside its number (docs/LANGUAGE.md, "Refusals").
#[derive(Clone, Copy, Debug, PartialEq, Eq)]
pub enum Detail {
    /// No more than the number.
    Nothing,
    /// A column of the line, from 1.
    Column(u32),
    /// An object, by its name.
    One(Text),
    /// An object and the session that owns it, both by their names.
    Two(Text, Text),
    /// An object, by its name, and the number of its latest generation.
    Count(Text, u64),
}

/// Why a line is refused: the number of the cause, the line of a block at which it stands, and its
/// detail (docs/LANGUAGE.md, "Refusals").
#[derive(Clone, Copy, Debug, PartialEq, Eq)]
pub struct Refusal {
    /// The number of the cause, from 1 to 30.
    pub number: u8,
    /// The line of the block, its first line being 1; 0 outside a block.
    pub line: u32,
    pub detail: Detail,
}

impl Refusal {
    /// A refusal outside a block.
    fn of(number: u8, detail: Detail) -> Refusal
        ensures { result ≡ record { number = number; line = 0; detail = detail } }
    {
        Refusal {
            number,
            line: 0,
            detail,
        }
    }

    /// Refusal 1 for what isn't built yet. The detail is column 1.
    pub fn no_form() -> Refusal
        ensures { result ≡ spec.no_form }
    {
        Refusal::of(1, Detail::Column(1))
    }

    /// Refusal 1: the tokens up to this column begin nothing.
    pub fn syntax(column: u32) -> Refusal
        ensures { result ≡ spec.syntax column }
    {
        Refusal::of(1, Detail::Column(column))
    }

    /// Refusal 2: no object of this name is defined. The name is given as it was written.
    pub fn unknown(name: Text) -> Refusal
        ensures { result ≡ spec.unknown name }
    {
        Refusal::of(2, Detail::One(name))
    }

    /// Refusal 3: the object isn't of the kind that is wanted. It is given by its name.
    pub fn wrong_kind(object: Text) -> Refusal
        ensures { result ≡ spec.wrong_kind object }
    {
        Refusal::of(3, Detail::One(object))
    }

    /// Refusal 4: types don't fit.
    pub fn types_differ() -> Refusal
        ensures { result ≡ spec.types_differ }
    {
        Refusal::of(4, Detail::Nothing)
    }

    /// Refusal 5: dimensions don't fit.
    pub fn dimensions_differ() -> Refusal
        ensures { result ≡ spec.dimensions_differ }
    {
        Refusal::of(5, Detail::Nothing)
    }

    /// Refusal 6: a dimension has no such value. The text is given as it was written.
    pub fn no_value(text: Text) -> Refusal
        ensures { result ≡ spec.no_value text }
    {
        Refusal::of(6, Detail::One(text))
    }

    /// Refusal 7: an object of this name is there already, or the dimension comes twice. It is given
    /// by its name.
    pub fn repeated(object: Text) -> Refusal
        ensures { result ≡ spec.repeated object }
    {
        Refusal::of(7, Detail::One(object))
    }

    /// Refusal 8: this dimension has no value to go over.
    pub fn null_status(dimension: Text) -> Refusal
        ensures { result ≡ spec.null_status dimension }
    {
        Refusal::of(8, Detail::One(dimension))
    }

    /// Refusal 9: a result is out of its range.
    pub fn overflow() -> Refusal
        ensures { result ≡ spec.overflow }
    {
        Refusal::of(9, Detail::Nothing)
    }

    /// Refusal 10: a division by zero.
    pub fn zero_divisor() -> Refusal
        ensures { result ≡ spec.zero_divisor }
    {
        Refusal::of(10, Detail::Nothing)
    }

    /// Refusal 14: there would be more than 4,096 objects, or a variable of more than 6 dimensions.
    pub fn too_many() -> Refusal
        ensures { result ≡ spec.too_many }
    {
        Refusal::of(14, Detail::Nothing)
    }

    /// Refusal 14: the record of a commit would have more than 67,108,864 bytes.
    pub fn too_large() -> Refusal
        ensures { result ≡ spec.too_large }
    {
        Refusal::of(14, Detail::Nothing)
    }

    /// Refusal 15: the session isn't attached.
    pub fn not_attached() -> Refusal
        ensures { result ≡ spec.not_attached }
    {
        Refusal::of(15, Detail::Nothing)
    }

    /// Refusal 16: the session is attached already.
    pub fn already_attached() -> Refusal
        ensures { result ≡ spec.already_attached }
    {
        Refusal::of(16, Detail::Nothing)
    }

    /// Refusal 17: another session, the owner, owns the object. Both are given by their names.
    pub fn owned_by(object: Text, owner: Text) -> Refusal
        ensures { result ≡ spec.owned_by object owner }
    {
        Refusal::of(17, Detail::Two(object, owner))
    }

    /// Refusal 18: the object's latest generation is newer than the session's, and has this number.
    pub fn newer(object: Text, number: u64) -> Refusal
        ensures { result ≡ spec.newer object number }
    {
        Refusal::of(18, Detail::Count(object, number))
    }

    /// Refusal 19: the session doesn't own the object.
    pub fn not_acquired(object: Text) -> Refusal
        ensures { result ≡ spec.not_acquired object }
    {
        Refusal::of(19, Detail::One(object))
    }

    /// Refusal 20: the session owns the object, which is given by its name.
    pub fn acquired(object: Text) -> Refusal
        ensures { result ≡ spec.acquired object }
    {
        Refusal::of(20, Detail::One(object))
    }

    /// Refusal 21: no object can be defined any more.
    pub fn definitions_closed() -> Refusal
        ensures { result ≡ spec.definitions_closed }
    {
        Refusal::of(21, Detail::Nothing)
    }

    /// Refusal 22: the object has the last generation that can be numbered.
    pub fn full(object: Text) -> Refusal
        ensures { result ≡ spec.full object }
    {
        Refusal::of(22, Detail::One(object))
    }

    /// Refusal 23: the session is attached for reading alone.
    pub fn read_only() -> Refusal
        ensures { result ≡ spec.read_only }
    {
        Refusal::of(23, Detail::Nothing)
    }

    /// Refusal 24: a line of a program begins with a word that stands in lines of a session alone.
    pub fn not_in_a_program() -> Refusal
        ensures { result ≡ spec.not_in_a_program }
    {
        Refusal::of(24, Detail::Nothing)
    }

    /// Refusal 27: the line is too long, or has a byte that no line has.
    pub fn bad_line() -> Refusal
        ensures { result ≡ spec.bad_line }
    {
        Refusal::of(27, Detail::Nothing)
    }

    /// Refusal 28: the run has as many sessions as it may have.
    pub fn too_many_sessions() -> Refusal
        ensures { result ≡ spec.too_many_sessions }
    {
        Refusal::of(28, Detail::Nothing)
    }

    /// Refusal 30: the disk failed in a commit.
    pub fn disk_fault() -> Refusal
        ensures { result ≡ spec.disk_fault }
    {
        Refusal::of(30, Detail::Nothing)
    }

    /// The same refusal at a line of a block, whose first line is 1.
    pub fn in_line(self, line: u32) -> Refusal
        ensures { result ≡ spec.in_line line self }
    {
        Refusal { line, ..self }
    }
}
