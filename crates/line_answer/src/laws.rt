//! Laws of lines that are answered at once. No code runs: a law is the contract of a function that does nothing, so that
//! it is proved with the crate. They speak of what `answer_lines` answers.

ghost use Rattle.line_answer.specs.Laws.{ClientsFirst, LinesAlone, LinesApart, LinesCertain};

/// What a tenant is shown is the same, whatever lines of others stand between its own: if what it and nobody asked is the
/// same, with the same luck.
pub fn lines_apart()
    ensures { LinesApart }
{}

/// Where the storage never failed and no turn was abandoned, which the journal shows, what is written is a function of
/// the lines and of what the silo had; and what a tenant is shown is a function of what it was shown before, of what
/// the tenant asked, and of the ticks and sweeps, which nobody asks.
pub fn lines_certain()
    ensures { LinesCertain }
{}

/// There a tenant is shown what a silo shows it that answers its lines, ticks and sweeps alone.
pub fn lines_alone()
    ensures { LinesAlone }
{}

/// What is written for a client's line is the line of one reply to it, under its number, followed by lines of replies
/// to grains.
pub fn clients_first()
    ensures { ClientsFirst }
{}
