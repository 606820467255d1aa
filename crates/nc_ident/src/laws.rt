//! Laws of the definitions in `specs/`, for the reader: each is proved, and none is run.
ghost use Rattle.nc_ident.specs.Date.{SpelledIsTime, SpellsOneSecond, FixedDateSpells, FixedDateIsOne};
ghost use Rattle.nc_ident.specs.Laws.{WrittenTagsSpell, WrittenIdSpells, SpellsOneList, SpellsOneCursor, SpelledAreTags, OnePlace};

/// What is written of tags or of a cursor is a spelling of them.
#[tactic(auto, using(crate::proofs::WrittenSpells::written_tags_spell, crate::proofs::WrittenSpells::written_id_spells))]
pub fn written_is_spelled()
    ensures tags { WrittenTagsSpell }
    ensures id { WrittenIdSpells }
{}

/// A text spells at most one list of tags, and at most one cursor.
pub fn text_spells_one()
    ensures tags { SpellsOneList }
    ensures id { SpellsOneCursor }
{}

/// A text that is malformed is so at one place.
#[tactic(auto, using(crate::proofs::Pieces::one_place))]
pub fn malformed_at_one_place()
    ensures { OnePlace }
{}

/// What a text spells are tags, one or more.
pub fn spelled_are_tags()
    ensures { SpelledAreTags }
{}

/// A second that a text spells is a time.
pub fn spelled_date_is_time()
    ensures { SpelledIsTime }
{}

/// A text spells at most one second.
pub fn date_spells_one_second()
    ensures { SpellsOneSecond }
{}

/// The fixed form of a second's date spells that second, and is one text.
pub fn fixed_date_spells()
    ensures spells { FixedDateSpells }
    ensures one { FixedDateIsOne }
{}
