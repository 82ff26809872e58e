ghost use Rattle.agg_map.specs.Laws.{TextsDefineMaps, MapsHaveLines};

/// The lines around a text define a map of one line or more, or nothing, and no rule of programs
/// refuses them: so no answer of `definition_in` is left out. See docs/LANGUAGE.md, "Aggregation maps".
pub fn texts_define_maps()
    ensures { TextsDefineMaps }
{}

/// Every map has a line. See docs/LANGUAGE.md, "Aggregation maps".
pub fn maps_have_lines()
    ensures { MapsHaveLines }
{}
