// What is proved of texts and models.
ghost use Rattle.text.specs.Bounds.{OneModel, SaidBounded, HasText, WrittenAnew};

// A text is one model at most.
pub fn one_model()
    ensures { OneModel }
{}

// What a text says is in bounds.
pub fn said_bounded()
    ensures { SaidBounded }
{}

// Every model in bounds has a text, the one that is written.
pub fn has_text()
    ensures { HasText }
{}

// A text written anew is read as the same model, and is no longer than it was.
pub fn written_anew()
    ensures { WrittenAnew }
{}
