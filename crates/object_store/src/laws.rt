ghost use Rattle.std.specs.Prelude.{◌≡◌, ◌+◌, ◌≤◌, ◌++◌, ℕ, List, Ok, All, length};
ghost use Rattle.out_update.specs.declared.update.Update.{Update};
ghost use Rattle.out_update.specs.Spelling.{FitsUpdate, update_text, updates_text};
ghost use Rattle.byte_grammar.specs.Numbers.{IsBytes};
ghost use Rattle.object_store.specs.declared.body.Body.{Body};
ghost use Rattle.object_store.specs.Bodies.{FitsBody, body_bytes};
ghost use Rattle.object_store.specs.Objects.{ObjectMap};
ghost use Rattle.object_store.specs.Meaning.{after, after_all};
ghost use Rattle.object_store.specs.ImageText.{image_text};
ghost use Rattle.object_store.specs.ImageReading.{body_at};

/// Laws of growth: what updates add to an image is no longer than they are themselves.
pub fn an_image_grows_at_most_as_its_updates_are_long()
    // One update adds at most the bytes of its own spelling.
    ensures one { (m : ObjectMap) (u : Update) → FitsUpdate u → length (image_text (after m u)) ≤ length (image_text m) + length (update_text u) }
    // The updates of a request together add at most the bytes of theirs.
    ensures all { (m : ObjectMap) (us : List Update) → All FitsUpdate us → length (image_text (after_all m us)) ≤ length (image_text m) + length (updates_text us) }
{}

/// Laws of the bytes of bodies.
pub fn one_spelling_per_body()
    // What is written is read again, whatever follows.
    ensures again { (b : Body) (rest : List ℕ) → FitsBody b → body_at (length (body_bytes b ++ rest)) (body_bytes b ++ rest) ≡ Ok (b, rest) }
    // What is read was written so.
    ensures only { (bytes rest : List ℕ) (b : Body) → IsBytes bytes → body_at (length bytes) bytes ≡ Ok (b, rest) → FitsBody b × (bytes ≡ body_bytes b ++ rest) }
{}
