//! Laws of requests.
ghost use Rattle.std.specs.Prelude.{◌≡◌, ◌≢◌, ◌++◌, ◌∷◌, [], true, false, ℕ, ℤ, List};
ghost use Rattle.ax_base.specs.declared.lists.Pair.{Pair as AnyPair};
ghost use Rattle.ax_text.specs.declared.vocabulary.Request.{Request};
ghost use Rattle.ax_text.specs.declared.vocabulary.Request.TheVariants as request;
ghost use Rattle.ax_text.specs.declared.vocabulary.Answer.TheVariants as answer;
ghost use Rattle.ax_text.specs.Cells.{Cells, state_of, items_in, answer_of, cells_after, kind_of};
ghost use Rattle.ax_text.specs.Rising.{MapsRise};

/// A request touches the one state that it names.
pub fn touches_one_state()
    ensures { (r : Request) (cells : Cells) (s : ℕ) → s ≢ state_of r → cells_after r cells s ≡ cells s }
{}

/// A get after a put finds the number, whatever was there before.
pub fn get_after_put()
    ensures { (cells : Cells) (s : ℕ) (n : ℤ) → answer_of (request.ValueGet s) (cells_after (request.ValuePut s n) cells) ≡ answer.Found n }
{}

/// The items of a list behind a number that is added: it goes last. Behind items that are put: these.
pub fn items_after_add_and_put()
    ensures add { (cells : Cells) (s : ℕ) (n : ℤ) → answer_of (request.ListGet s) (cells_after (request.ListAdd s n) cells) ≡ answer.Items (items_in (cells s) ++ n ∷ []) }
    ensures put { (cells : Cells) (s : ℕ) (items : List ℤ) → answer_of (request.ListGet s) (cells_after (request.ListPut s items) cells) ≡ answer.Items items }
{}

/// What a map has at a key behind a number that is put at a key: that number there, and elsewhere what it had.
pub fn entry_after_put()
    ensures there { (cells : Cells) (s : ℕ) (at : ℤ) (n : ℤ) → answer_of (request.MapGet s at) (cells_after (request.MapPut s at n) cells) ≡ answer.Found n }
    ensures elsewhere { (cells : Cells) (s : ℕ) (at : ℤ) (n : ℤ) (other : ℤ) → other ≢ at → answer_of (request.MapGet s other) (cells_after (request.MapPut s at n) cells) ≡ answer_of (request.MapGet s other) cells }
{}

/// What a map has at a key behind an entry that is taken out: nothing there, and elsewhere what it had.
pub fn entry_after_remove()
    ensures there { (cells : Cells) (s : ℕ) (at : ℤ) → MapsRise cells → answer_of (request.MapGet s at) (cells_after (request.MapRemove s at) cells) ≡ answer.Missing }
    ensures elsewhere { (cells : Cells) (s : ℕ) (at : ℤ) (other : ℤ) → other ≢ at → answer_of (request.MapGet s other) (cells_after (request.MapRemove s at) cells) ≡ answer_of (request.MapGet s other) cells }
{}

/// A map has an entry at a key where a get finds one, and is empty where it has no entries.
pub fn has_and_empty_tell()
    ensures has { (cells : Cells) (s : ℕ) (at : ℤ) (n : ℤ) → answer_of (request.MapGet s at) cells ≡ answer.Found n → answer_of (request.MapHas s at) cells ≡ answer.Flag true }
    ensures has_not { (cells : Cells) (s : ℕ) (at : ℤ) → answer_of (request.MapGet s at) cells ≡ answer.Missing → answer_of (request.MapHas s at) cells ≡ answer.Flag false }
    ensures empty { (cells : Cells) (s : ℕ) → answer_of (request.MapEntries s) cells ≡ answer.Pairs [] → answer_of (request.MapEmpty s) cells ≡ answer.Flag true }
    ensures not_empty { (cells : Cells) (s : ℕ) (p : AnyPair) (ps : List AnyPair) → answer_of (request.MapEntries s) cells ≡ answer.Pairs (p ∷ ps) → answer_of (request.MapEmpty s) cells ≡ answer.Flag false }
{}

/// A state that was cleared holds nothing, whatever its kind, and is of the kind that it was.
pub fn nothing_after_clear()
    ensures value { (cells : Cells) (s : ℕ) → answer_of (request.ValueGet s) (cells_after (request.Clear s) cells) ≡ answer.Missing }
    ensures items { (cells : Cells) (s : ℕ) → answer_of (request.ListGet s) (cells_after (request.Clear s) cells) ≡ answer.Items [] }
    ensures entries { (cells : Cells) (s : ℕ) → answer_of (request.MapEntries s) (cells_after (request.Clear s) cells) ≡ answer.Pairs [] }
    ensures kind { (cells : Cells) (s : ℕ) → kind_of (cells_after (request.Clear s) cells s) ≡ kind_of (cells s) }
{}
