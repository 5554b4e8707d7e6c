use st_base::KeptText;

// The text before the name of the first kind.
const FRONT: &str = "{\"operations\":{\"";

// The text between the name of a kind and its first signed text.
const OPENED: &str = "\":[{\"signedData\":\"";

// The text between two signed texts of one kind.
const BETWEEN: &str = "\"},{\"signedData\":\"";

// The text between the last signed text of a kind and the name of the next kind.
const CLOSED: &str = "\"}],\"";

/// The expected place of the next signed text in a proof file. If the file is its own canonical
/// text, as nearly all are, the signed text is there and is shared with the file. Otherwise the
/// guess is wrong and only costs memory: the text is copied.
#[derive(Drop)]
pub(crate) struct Guess {
    // The place of the name of the next kind.
    kind: usize,
    // The place of the next signed text of this kind.
    text: usize,
}

impl Guess {
    /// Before the first kind.
    pub fn new() -> Guess {
        Guess {
            kind: FRONT.len(),
            text: 0,
        }
    }

    /// The next signed text is the first of this kind. A kind without texts is left out of the
    /// file.
    pub fn open(&mut self, kind: &str) {
        let end = self.kind.saturating_add(kind.len());
        self.text = end.saturating_add(OPENED.len());
    }

    /// The offset of the next signed text, in bytes.
    pub fn text(&self) -> usize {
        self.text
    }

    /// Moves past this signed text.
    pub fn pass(&mut self, text: &KeptText) {
        let end = self.text.saturating_add(text.as_slice().len());
        self.kind = end.saturating_add(CLOSED.len());
        self.text = end.saturating_add(BETWEEN.len());
    }
}
