//! What holds of the definitions, for every text and message.
ghost use Rattle.std.specs.Prelude.{◌≡◌, ◌<◌, ◌≤◌, ◌↔◌, ◌⊎◌, IsTrue, length, map, drop, slice_index, List, ℕ, [], ◌∷◌, true, false, codes};
ghost use Rattle.gw_er7.specs.declared.fault.ReadFault.{ReadFault};
ghost use Rattle.gw_er7.specs.Text.{standard, canon, is_canonical, IsCanonical};
ghost use Rattle.gw_er7.specs.Faults.{Faulty};
ghost use Rattle.gw_er7.specs.Message.{SegmentValue, IsMessage};
ghost use Rattle.gw_er7.specs.Reading.{raw_at, Reads};
ghost use Rattle.gw_er7.specs.Content.{lines, is_delimited, is_segment_line};
ghost use Rattle.gw_er7.specs.Written.{fields_text, written};
ghost use Rattle.gw_er7.specs.Encoding.{HasNoIdle, IsWriting};

/// A canonical text is its own canonical text under the standard delimiters.
#[tactic(auto, using(crate::proofs::Fixed::canonical_stays))]
pub fn canonical_stays()
    ensures { (text : List ℕ) → IsCanonical text → canon standard text ≡ text }
{}

/// The test of canonical texts is true exactly of them.
#[tactic(auto, using(crate::proofs::Canonicals::decides))]
pub fn canonical_is_decided()
    ensures { (text : List ℕ) → IsTrue (is_canonical text) ↔ IsCanonical text }
{}

/// Bytes read as one message, or have one fault, and not both.
#[tactic(auto, using(crate::proofs::Once::reads_once, crate::proofs::Faults::one_fault))]
pub fn reads_once()
    ensures message { (content : List ℕ) (a b : List SegmentValue) → IsMessage a → IsMessage b → Reads content a → Reads content b → a ≡ b }
    ensures fault { (content : List ℕ) (a b : ReadFault) → Faulty content a → Faulty content b → a ≡ b }
    ensures apart { (content : List ℕ) (a : List SegmentValue) (b : ReadFault) → Reads content a → ¬ (Faulty content b) }
{}

/// All bytes read as a message or have a fault.
#[tactic(auto, using(crate::proofs::Total::answered))]
pub fn reads_or_fails()
    ensures { (content : List ℕ) → ((k : ℕ) → slice_index content k < 256) →
        ((fault : ReadFault) × Faulty content fault) ⊎ ((message : List SegmentValue) × (IsMessage message × Reads content message)) }
{}

/// What is written for a message of at most 10,000 segments reads as that message.
#[tactic(auto, using(crate::proofs::Again::reads_again))]
pub fn written_is_read()
    ensures { (message : List SegmentValue) → IsMessage message → length message ≤ 10000 → Reads (written message) message }
{}

/// Behind the delimiters of its header line, no separator of a written message stands right before one of a higher level or the end of a line.
#[tactic(auto, using(crate::proofs::Writings::no_idle_written))]
pub fn written_has_no_idle_separator()
    ensures { (message : List SegmentValue) → IsMessage message → HasNoIdle (drop 8 (written message)) }
{}

/// No other bytes that meet the rules of writing read as a message than those that are written for it.
pub fn written_is_the_one()
    ensures { (content : List ℕ) → (message : List SegmentValue) → IsMessage message → (IsWriting content message ↔ (content ≡ written message)) }
{}

/// Rows of the rules, computed: a lone escape character, a sequence that is kept, two escape characters, another sender's delimiters, and what is canonical.
pub fn rows()
    ensures lone { canon standard (codes "C:\\a") ≡ codes "C:\\E\\a" }
    ensures kept { canon standard (codes "x\\.br\\y") ≡ codes "x\\.br\\y" }
    ensures two { canon standard (codes "a\\\\b") ≡ codes "a\\E\\\\E\\b" }
    ensures other { canon (record { field = 35; component = 94; repetition = 126; escape = 92; subcomponent = 38 }) (codes "a\\F\\b|c") ≡ codes "a#b\\F\\c" }
    ensures canonical { is_canonical (codes "a#b\\F\\c") ≡ true }
    ensures not_canonical { is_canonical (codes "C:\\a") ≡ false }
{}

/// Rows of reading, computed: lines, delimiters, segment lines and the value at a place.
pub fn rows_of_reading()
    ensures lines { map (λ l. l.at) (lines (codes "MSH|^~\\&\r\n\nPID\r")) ≡ 0 ∷ 11 ∷ [] }
    ensures delimited { is_delimited (codes "MSH#^~\\&#LAB") ≡ true }
    ensures bare { is_delimited (codes "MSH|^~\\&") ≡ true }
    ensures short { is_delimited (codes "MSH|^~\\|") ≡ false }
    ensures second_header { is_segment_line 124 (codes "MSH|1") ≡ false }
    ensures long_name { is_segment_line 124 (codes "PIDX|1") ≡ false }
    ensures bare_name { is_segment_line 124 (codes "PID") ≡ true }
    ensures value { raw_at standard (codes "x|a^b&c~~d") 2 (record { field = 2; rep = 1; comp = 2; sub = 2 }) ≡ codes "c" }
    ensures absent { raw_at standard (codes "x|a^b&c~~d") 2 (record { field = 2; rep = 2; comp = 1; sub = 1 }) ≡ [] }
{}

/// Rows of writing, computed: MSH counts its delimiters as two fields, and no separator stands behind the last value.
pub fn rows_of_writing()
    ensures header { fields_text 3 ((3 ∷ 1 ∷ 1 ∷ 1 ∷ [], codes "LAB") ∷ []) ≡ codes "LAB" }
    ensures third { fields_text 1 ((3 ∷ 1 ∷ 1 ∷ 1 ∷ [], codes "a#b\\F\\c") ∷ []) ≡ codes "||a#b\\F\\c" }
    ensures levels { fields_text 1 ((2 ∷ 1 ∷ 1 ∷ 1 ∷ [], codes "x") ∷ (3 ∷ 1 ∷ 2 ∷ 2 ∷ [], codes "c") ∷ (3 ∷ 3 ∷ 1 ∷ 1 ∷ [], codes "d") ∷ []) ≡
        codes "|x|^&c~~d" }
{}
