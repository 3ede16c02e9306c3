//! The forms of a journal's text.

ghost use Rattle.std.specs.Prelude.{◌≡◌, ◌≤◌, ℕ, ◌+◌, IfSome, None, length};
ghost use Rattle.journal_text.specs.declared.form.Form.{Form};
ghost use Rattle.journal_text.specs.Form.{written, form_text, tells_kinds, is_code};
ghost use Rattle.journal_text.specs.Text.{line_text, kinds_lines};
ghost use Rattle.journal_text.specs.declared.line.Line.TheVariants as line;

/// A form of a journal's text. The head of a journal names it.
#[derive(Clone, Copy, Debug, PartialEq, Eq)]
pub enum Form {
    /// `silo-journal 1`.
    First,
    /// `silo-journal 2`: it says which logic the kinds have, and may give their ages.
    Second,
    /// `silo-journal 3`: messages have the current form, and bytes may occur among values.
    Third,
}

impl Form {
    /// The form in which journals are written.
    pub(crate) fn written() -> Form
        ensures { result ≡ written }
    {
        Form::Third
    }

    /// The form's number.
    pub(crate) fn text(self) -> &'static str
        ensures { result.now ≡ form_text self }
    {
        match self {
            Form::First => "1",
            Form::Second => "2",
            Form::Third => "3",
        }
    }

    /// Whether a journal of the form says which logic its kinds have, and may give their ages.
    pub(crate) fn tells_kinds(self) -> bool
        ensures { result ≡ tells_kinds self }
    {
        match self {
            Form::First => false,
            Form::Second | Form::Third => true,
        }
    }

    /// The number of the age's line.
    pub(crate) fn age_line(self) -> usize
        ensures place { (kinds : ℕ) → result ≡ length (kinds_lines self kinds) + 2 }
        ensures early { result ≤ 3 }
    {
        match self {
            Form::First => 2,
            Form::Second | Form::Third => 3,
        }
    }

    /// Whether the number is a fault's code.
    pub(crate) fn is_code(self, number: u64) -> bool
        ensures { result ≡ is_code self number }
    {
        match self {
            Form::First | Form::Second => matches!(
                number,
                10..=13 | 20..=22 | 40..=43 | 53 | 54 | 56 | 60..=63 | 70
            ),
            Form::Third => matches!(
                number,
                10..=14 | 20..=22 | 40..=43 | 53 | 54 | 56 | 60..=63 | 70
            ),
        }
    }

    /// The form of the head that the text is.
    pub(crate) fn of_head(text: &str) -> Option<Form>
        ensures some { IfSome result (λ form. text.now ≡ line_text form line.Head) }
        ensures none { result ≡ None → (form : Form) → text.now ≡ line_text form line.Head → ⊥ }
    {
        match text {
            "silo-journal 1" => Some(Form::First),
            "silo-journal 2" => Some(Form::Second),
            "silo-journal 3" => Some(Form::Third),
            _ => None,
        }
    }
}
