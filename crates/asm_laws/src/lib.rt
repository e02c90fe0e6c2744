// The laws of an assembled file: it starts the process that its text tells.
#![tactic(auto)]

ghost use Rattle.std.specs.Prelude.{◌≡◌, ℕ, List, [], ◌∷◌, Ok, Err, true, false};
ghost use Rattle.rv_asm.specs.Assembly.{assembled};
ghost use Rattle.asm_laws.specs.Loaded.{text_byte, is_text_page, text_user, loaded_text, LoadsAs};
ghost use Rattle.asm_laws.specs.Worked.{five, byte_and_bss, align, no_space};

/// The file of a text loads to the state of its text, which `loaded_text` tells from the text's lines, without a file.
pub fn files_load()
    ensures { (text file : List ℕ) → assembled text ≡ Ok file → LoadsAs text file }
{}

/// Texts whose states were worked by hand: one instruction; a byte and 4,096 zeros behind it, on two pages; and texts that take no memory, whose
/// files are no images.
pub fn worked_texts()
    ensures five { (words : List (List ℕ)) → loaded_text five words ≡ Ok (text_user (0x13 ∷ 0x05 ∷ 0x50 ∷ 0x00 ∷ []) 4 words) }
    ensures two_pages { (words : List (List ℕ)) → loaded_text byte_and_bss words ≡ Ok (text_user (7 ∷ []) 4097 words) }
    ensures heap { (words : List (List ℕ)) → (text_user (7 ∷ []) 4097 words).base ≡ 0x12000 }
    ensures first { text_byte (7 ∷ []) 0x10000 ≡ 7 }
    ensures second { text_byte (7 ∷ []) 0x10001 ≡ 0 }
    ensures last_page { is_text_page 4097 17 ≡ true }
    ensures no_third { is_text_page 4097 18 ≡ false }
    ensures empty { (words : List (List ℕ)) → loaded_text [] words ≡ Err 11 }
    ensures align { (words : List (List ℕ)) → loaded_text align words ≡ Err 11 }
    ensures no_space { (words : List (List ℕ)) → loaded_text no_space words ≡ Err 11 }
{}

#[cfg(test)]
mod tests;
