ghost use Rattle.std.specs.Prelude.{◌≡◌, map, option_map};
ghost use Rattle.dml_tree.specs.Words.{word_place, word_number};
ghost use Rattle.dml_tree.specs.inside.Scanning.{looked_up};

use aw_cell::is_same_word;

/// A reserved word, which stands for itself and names no object (docs/LANGUAGE.md, "Names and words").
#[derive(Clone, Copy, Debug, PartialEq, Eq)]
pub enum Word {
    /// ABS
    Abs,
    /// ACQUIRE
    Acquire,
    /// ACROSS
    Across,
    /// ADD
    Add,
    /// AFTER
    After,
    /// AGGMAP
    AggMap,
    /// AGGREGATE
    Aggregate,
    /// ALL
    All,
    /// ALLOCATE
    Allocate,
    /// ANCESTORS
    Ancestors,
    /// AND
    And,
    /// ARGUMENT
    Argument,
    /// ATTACH
    Attach,
    /// AVERAGE
    Average,
    /// AW
    Aw,
    /// BASEDON
    BasedOn,
    /// BASIS
    Basis,
    /// BEFORE
    Before,
    /// BOOLEAN
    Boolean,
    /// BOTTOM
    Bottom,
    /// CALL
    Call,
    /// CHILDREN
    Children,
    /// COMMIT
    Commit,
    /// COMPLEMENT
    Complement,
    /// COMPOSITE
    Composite,
    /// CONSISTENT
    Consistent,
    /// COPY
    Copy,
    /// COUNT
    Count,
    /// CUMSUM
    CumSum,
    /// DEFINE
    Define,
    /// DELETE
    Delete,
    /// DESCENDANTS
    Descendants,
    /// DETACH
    Detach,
    /// DIMENSION
    Dimension,
    /// DO
    Do,
    /// DOEND
    DoEnd,
    /// ELSE
    Else,
    /// END
    End,
    /// EQ
    Eq,
    /// EVEN
    Even,
    /// FALSE
    False,
    /// FIRST
    First,
    /// FOR
    For,
    /// FORMULA
    Formula,
    /// GE
    Ge,
    /// GT
    Gt,
    /// HCOPY
    HCopy,
    /// HEVEN
    HEven,
    /// IF
    If,
    /// INTEGER
    Integer,
    /// KEEP
    Keep,
    /// LAG
    Lag,
    /// LAST
    Last,
    /// LE
    Le,
    /// LEAD
    Lead,
    /// LIMIT
    Limit,
    /// LT
    Lt,
    /// MAINTAIN
    Maintain,
    /// MAX
    Max,
    /// MIN
    Min,
    /// MODEL
    Model,
    /// MOVE
    Move,
    /// MOVINGTOTAL
    MovingTotal,
    /// MULTI
    Multi,
    /// NA
    Na,
    /// NAFILL
    NaFill,
    /// NE
    Ne,
    /// NO
    No,
    /// NOT
    Not,
    /// NUMBER
    Number,
    /// OPERATOR
    Operator,
    /// OR
    Or,
    /// PARENTS
    Parents,
    /// PROGRAM
    Program,
    /// PROPORTIONAL
    Proportional,
    /// RELATION
    Relation,
    /// RELEASE
    Release,
    /// REMOPERATOR
    RemOperator,
    /// REMOVE
    Remove,
    /// RENAME
    Rename,
    /// REPORT
    Report,
    /// RESYNC
    Resync,
    /// RETURN
    Return,
    /// REVERT
    Revert,
    /// RO
    Ro,
    /// SHOW
    Show,
    /// SUM
    Sum,
    /// TARGET
    Target,
    /// TEXT
    Text,
    /// THEN
    Then,
    /// TO
    To,
    /// TOP
    Top,
    /// TRUE
    True,
    /// UPDATE
    Update,
    /// USING
    Using,
    /// VALUESET
    ValueSet,
    /// VARIABLE
    Variable,
    /// WHILE
    While,
    /// WITH
    With,
    /// YES
    Yes,
}

/// Each reserved word behind how it is spelled, in the order of the spellings.
const WORDS: [(&[u8], Word); 100] = [
    (b"ABS", Word::Abs),
    (b"ACQUIRE", Word::Acquire),
    (b"ACROSS", Word::Across),
    (b"ADD", Word::Add),
    (b"AFTER", Word::After),
    (b"AGGMAP", Word::AggMap),
    (b"AGGREGATE", Word::Aggregate),
    (b"ALL", Word::All),
    (b"ALLOCATE", Word::Allocate),
    (b"ANCESTORS", Word::Ancestors),
    (b"AND", Word::And),
    (b"ARGUMENT", Word::Argument),
    (b"ATTACH", Word::Attach),
    (b"AVERAGE", Word::Average),
    (b"AW", Word::Aw),
    (b"BASEDON", Word::BasedOn),
    (b"BASIS", Word::Basis),
    (b"BEFORE", Word::Before),
    (b"BOOLEAN", Word::Boolean),
    (b"BOTTOM", Word::Bottom),
    (b"CALL", Word::Call),
    (b"CHILDREN", Word::Children),
    (b"COMMIT", Word::Commit),
    (b"COMPLEMENT", Word::Complement),
    (b"COMPOSITE", Word::Composite),
    (b"CONSISTENT", Word::Consistent),
    (b"COPY", Word::Copy),
    (b"COUNT", Word::Count),
    (b"CUMSUM", Word::CumSum),
    (b"DEFINE", Word::Define),
    (b"DELETE", Word::Delete),
    (b"DESCENDANTS", Word::Descendants),
    (b"DETACH", Word::Detach),
    (b"DIMENSION", Word::Dimension),
    (b"DO", Word::Do),
    (b"DOEND", Word::DoEnd),
    (b"ELSE", Word::Else),
    (b"END", Word::End),
    (b"EQ", Word::Eq),
    (b"EVEN", Word::Even),
    (b"FALSE", Word::False),
    (b"FIRST", Word::First),
    (b"FOR", Word::For),
    (b"FORMULA", Word::Formula),
    (b"GE", Word::Ge),
    (b"GT", Word::Gt),
    (b"HCOPY", Word::HCopy),
    (b"HEVEN", Word::HEven),
    (b"IF", Word::If),
    (b"INTEGER", Word::Integer),
    (b"KEEP", Word::Keep),
    (b"LAG", Word::Lag),
    (b"LAST", Word::Last),
    (b"LE", Word::Le),
    (b"LEAD", Word::Lead),
    (b"LIMIT", Word::Limit),
    (b"LT", Word::Lt),
    (b"MAINTAIN", Word::Maintain),
    (b"MAX", Word::Max),
    (b"MIN", Word::Min),
    (b"MODEL", Word::Model),
    (b"MOVE", Word::Move),
    (b"MOVINGTOTAL", Word::MovingTotal),
    (b"MULTI", Word::Multi),
    (b"NA", Word::Na),
    (b"NAFILL", Word::NaFill),
    (b"NE", Word::Ne),
    (b"NO", Word::No),
    (b"NOT", Word::Not),
    (b"NUMBER", Word::Number),
    (b"OPERATOR", Word::Operator),
    (b"OR", Word::Or),
    (b"PARENTS", Word::Parents),
    (b"PROGRAM", Word::Program),
    (b"PROPORTIONAL", Word::Proportional),
    (b"RELATION", Word::Relation),
    (b"RELEASE", Word::Release),
    (b"REMOPERATOR", Word::RemOperator),
    (b"REMOVE", Word::Remove),
    (b"RENAME", Word::Rename),
    (b"REPORT", Word::Report),
    (b"RESYNC", Word::Resync),
    (b"RETURN", Word::Return),
    (b"REVERT", Word::Revert),
    (b"RO", Word::Ro),
    (b"SHOW", Word::Show),
    (b"SUM", Word::Sum),
    (b"TARGET", Word::Target),
    (b"TEXT", Word::Text),
    (b"THEN", Word::Then),
    (b"TO", Word::To),
    (b"TOP", Word::Top),
    (b"TRUE", Word::True),
    (b"UPDATE", Word::Update),
    (b"USING", Word::Using),
    (b"VALUESET", Word::ValueSet),
    (b"VARIABLE", Word::Variable),
    (b"WHILE", Word::While),
    (b"WITH", Word::With),
    (b"YES", Word::Yes),
];

fn look_up(mut table: &[(&[u8], Word)], written: &[u8]) -> Option<Word>
    ensures { result ≡ looked_up (map (λ k. (k.0.now, k.1)) table.entry.now) written.now }
{
    while let [entry, rest @ ..] = table {
        if is_same_word(written, entry.0) {
            return Some(entry.1);
        }
        table = rest;
    }
    None
}

impl Word {
    /// The reserved word that is written, in small or capital letters, or `None` where these bytes are
    /// no reserved word.
    pub(crate) fn of(written: &[u8]) -> Option<Word>
        ensures { option_map word_number result ≡ word_place written.now }
    {
        look_up(&WORDS, written)
    }
}
