// That the two cabinets can be sent any eight bytes, and can be advanced.
ghost use Rattle.rules.specs.Cabinet.{Serving};
ghost use Rattle.cabinet.specs.Meanings.{patch_meaning, stimulus_meaning};

/// A law of the two cabinets: from whatever they hold, any eight bytes can be sent, and an advance can be made.
pub fn cabinets_serve()
    ensures patch { Serving patch_meaning }
    ensures stimulus { Serving stimulus_meaning }
{}
