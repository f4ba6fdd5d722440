// What is known of each subterm of a term.
ghost use Rattle.std.specs.Prelude.{◌≡◌};
ghost use Rattle.sy_grammar.specs.Notes as notes;
ghost use Rattle.sy_grammar.specs.Noted.{note_of, notes_of};

/// For a subterm, per nonterminal the number of a step that derives it; and the same for its arguments.
#[derive(Drop)]
pub struct Note {
    row: Vec<Option<usize>>,
    below: Vec<Note>,
}

impl Note {
    /// The note of a term with these arguments' notes.
    pub fn new(row: Vec<Option<usize>>, below: Vec<Note>) -> Note
        ensures { note_of result ≡ notes.Noted row.items (notes_of below.items) }
    {
        Note { row, below }
    }

    /// Per nonterminal the number of a step that derives the term.
    pub fn row(&self) -> &[Option<usize>]
        ensures { result.now ≡ notes.note_row (note_of self.now) }
    {
        self.row.as_slice()
    }

    /// The notes of the arguments.
    pub fn below(&self) -> &[Note]
        ensures { notes_of result.now ≡ notes.below (note_of self.now) }
    {
        self.below.as_slice()
    }
}
