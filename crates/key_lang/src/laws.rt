//! What holds of key files for every text. The functions do nothing: their contracts are the laws.

ghost use Rattle.std.specs.Prelude.{◌≤◌, ◌↔◌, ℕ, List, length, Ok};
ghost use Rattle.key_lang.specs.CanonicalKeys.{keys_text};
ghost use Rattle.key_file.specs.KeyFile.{IsKeyFile};
ghost use Rattle.key_file.specs.KeyShape.{KeyShape};
ghost use Rattle.gk_base.specs.Answers.{HasOne};
ghost use Rattle.key_lang.specs.OpenKey.{KeyState};
ghost use Rattle.key_lang.specs.Statements.{KeyLineSays};
ghost use Rattle.key_lang.specs.KeyText.{KeysSay};

/// After the same lines, a line says one thing.
pub fn law_one_line_answer()
    ensures { (state : KeyState) (line : List ℕ) → HasOne (KeyLineSays state line) }
{}

/// A key file says one thing under a limit: its keys, or one refusal.
pub fn law_one_keys_answer()
    ensures { (limit : ℕ) (bytes : List ℕ) → HasOne (KeysSay limit bytes) }
{}

/// What is written of the keys of a file is read as these keys under exactly the limits that the text fits, whatever the
/// limit under which the file was read.
pub fn law_keys_read_back()
    ensures { (first limit : ℕ) (bytes : List ℕ) (keys : List KeyShape) → KeysSay first bytes (Ok keys) →
        (length (keys_text keys) ≤ limit) ↔ KeysSay limit (keys_text keys) (Ok keys) }
{}

/// What a key file says is a key file: at most 64 valid keys, whose names are all different.
pub fn law_key_file()
    ensures { (limit : ℕ) (bytes : List ℕ) (keys : List KeyShape) → KeysSay limit bytes (Ok keys) → IsKeyFile keys }
{}
