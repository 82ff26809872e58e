ghost use Rattle.aw_cell.specs.Laws.{TextsAreNumerals, TextsTellApart, NumeralsHaveOneValue, SumsCommute, SumsAssociate, OneIsNeutral, RoundsToTheNearest, StaysInRange, EqualToItself, ComparesWithNa, AndOfEachPair, OrOfEachPair, NotOfEach, OneSideDecides, IsOrderedBy, is_number, is_text_cell, OrdersAgree, DeMorgan};

/// What `Number::write` writes is a numeral, and `Number::read` gives the number back.
pub fn texts_are_numerals()
    ensures { TextsAreNumerals }
{}

/// Two numbers have two texts.
pub fn texts_tell_apart()
    ensures { TextsTellApart }
{}

/// A numeral is one of one number alone.
pub fn numerals_have_one_value()
    ensures { NumeralsHaveOneValue }
{}

/// Addition is commutative, and associative where nothing overflows on the way.
pub fn sums_in_any_order()
    ensures commute { SumsCommute }
    ensures associate { SumsAssociate }
{}

/// A number times one, and a number by one, is that number.
pub fn one_is_neutral()
    ensures { OneIsNeutral }
{}

/// What is rounded is off by at most half, and where by just half, it lies farther from zero. No
/// other whole number does.
pub fn rounds_to_the_nearest()
    ensures { RoundsToTheNearest }
{}

/// What arithmetic gives is in the range of its type: of a NUMBER from -99999999999999.9999 to
/// 99999999999999.9999, and of an INTEGER from -2147483647 to 2147483647.
pub fn arithmetic_stays_in_range()
    ensures { StaysInRange }
{}

/// A cell is equal to itself. NA is equal to NA alone, and with any of the other four orders NA.
pub fn na_compares_with_na()
    ensures itself { EqualToItself }
    ensures table { ComparesWithNa }
{}

/// Numbers of both kinds, and texts, are ordered by comparison.
pub fn comparison_orders()
    ensures numbers { IsOrderedBy is_number }
    ensures texts { IsOrderedBy is_text_cell }
{}

/// The six orders agree with one another.
pub fn orders_agree()
    ensures { OrdersAgree }
{}

/// The tables of AND, OR and NOT. NO AND anything is NO, and YES OR anything is YES.
pub fn truth_tables()
    ensures and { AndOfEachPair }
    ensures or { OrOfEachPair }
    ensures not { NotOfEach }
    ensures decides { OneSideDecides }
{}

/// NOT turns AND into OR and OR into AND, NA included.
pub fn de_morgan()
    ensures { DeMorgan }
{}
