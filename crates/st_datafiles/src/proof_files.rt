ghost use Rattle.std.specs.List.{filter_map, list_all};
ghost use Rattle.std.specs.Prelude.{◌≡◌, IfOk, Some, codes, is_some, map, ℕ, None};
ghost use Rattle.st_base.specs.Lists.{each_is};
ghost use Rattle.st_base.specs.Rules.{Answers};
ghost use Rattle.st_base.specs.Work.{one_file};
ghost use Rattle.st_plain.specs.Plain.{canonical};
ghost use Rattle.st_plain.specs.Objects.{some_list, some_listed};
ghost use Rattle.st_plain.specs.Shapes.{json_in};
ghost use Rattle.st_canon.specs.View.{plain, plain_members};
ghost use Rattle.st_params.specs.ParamsValue.{ParamsValue};
ghost use Rattle.st_datafiles.specs.ProofFiles.{core_proofs_of, proofs_of, signed_in, signed_of, core_proof_json, proof_json, provisional_proof_json, signed_json, proof_rule_name, core_proof_json_rules, core_proof_rules, has_proof_form, has_proofs, provisional_proof_json_rules, provisional_proof_rules, first_failing_core_proof_rule, first_failing_provisional_proof_rule};

use crate::guess::Guess;
use st_base::{Bytes, Copied, FileRefused, KeptText, List, Shared, Text, WantOfMemory, Work};
use st_canon::{Json, Object, some_list, some_object, write};
use st_params::Params;
use st_scan::{CanonicalText, Entries, Scanned, entries_in};
use std::alloc::Global;

/// The content of a core proof file: the signed texts of the recovers and of the deactivates.
#[derive(Drop)]
pub struct CoreProofs {
    pub recovers: List<KeptText>,
    pub deactivates: List<KeptText>,
}

impl Copied for CoreProofs {
    fn copy(&self, alloc: Global) -> Result<CoreProofs, WantOfMemory> {
        let recovers = self.recovers.copy(alloc)?;
        let deactivates = self.deactivates.copy(alloc)?;
        Ok(CoreProofs {
            recovers,
            deactivates,
        })
    }
}

/// The rules of the two proof files, in their order.
#[derive(Clone, Copy, Debug, PartialEq, Eq)]
pub enum ProofRule {
    /// The file has more than `max_proofs` bytes.
    Q1,
    /// It isn't read as JSON with whole numbers.
    Q2,
    /// It isn't an object with exactly `operations`, an object with no members except lists of its
    /// kinds, or an entry isn't an object with exactly `signedData`, a text.
    Q3,
    /// A list's length isn't the number of operations of that kind in the index file.
    Q4,
}

impl ProofRule {
    /// The name of the rule: a letter for the kind of file, and its number, as `Q4`.
    pub fn name(&self) -> &'static str
        ensures { result.now ≡ proof_rule_name self.now }
    {
        match self {
            ProofRule::Q1 => "Q1",
            ProofRule::Q2 => "Q2",
            ProofRule::Q3 => "Q3",
            ProofRule::Q4 => "Q4",
        }
    }
}

/// Why a proof file is not accepted.
pub type ProofRefused = FileRefused<ProofRule>;

/// The signed texts of a core proof file, which must have this many of each kind. They are shared
/// with the file if that is canonical. It counts as one file, whatever the answer is.
///
/// The result is `Rejected` if and only if the file fails a rule; it has the first one.
pub fn read_core_proof(
    alloc: Global,
    file: &Shared<Bytes>,
    recovers: usize,
    deactivates: usize,
    params: &Params,
    work: &mut Work,
) -> Result<CoreProofs, ProofRefused>
    ensures answers { Answers (core_proof_rules params.now recovers deactivates file.now)
        (Some (core_proofs_of (json_in file.now))) result }
    ensures counted { work.new ≡ one_file work.old }
{
    work.tick_files();
    let bytes = file.get().as_slice();
    if bytes.len() > params.max_proofs() {
        return Err(FileRefused::Rejected(ProofRule::Q1));
    }
    match CanonicalText::read_json(alloc, bytes)? {
        Some(text) => core_proofs_in(alloc, &text.root(), file, recovers, deactivates),
        None => Err(FileRefused::Rejected(ProofRule::Q2)),
    }
}

/// The signed texts of a provisional proof file, which must have this many. They are shared with
/// the file if that is canonical. It counts as one file, whatever the answer is.
///
/// The result is `Rejected` if and only if the file fails a rule; it has the first one.
pub fn read_provisional_proof(
    alloc: Global,
    file: &Shared<Bytes>,
    updates: usize,
    params: &Params,
    work: &mut Work,
) -> Result<List<KeptText>, ProofRefused>
    ensures answers { Answers (provisional_proof_rules params.now updates file.now)
        (Some (signed_of (codes "update") (json_in file.now))) result }
    ensures counted { work.new ≡ one_file work.old }
{
    work.tick_files();
    let bytes = file.get().as_slice();
    if bytes.len() > params.max_proofs() {
        return Err(FileRefused::Rejected(ProofRule::Q1));
    }
    match CanonicalText::read_json(alloc, bytes)? {
        Some(text) => updates_in(alloc, &text.root(), file, updates),
        None => Err(FileRefused::Rejected(ProofRule::Q2)),
    }
}

// The same, from the JSON of the file, in which the texts are looked for.
fn core_proofs_in(
    alloc: Global,
    json: &Scanned<'_>,
    file: &Shared<Bytes>,
    recovers: usize,
    deactivates: usize,
) -> Result<CoreProofs, ProofRefused>
    ensures { Answers (core_proof_json_rules recovers deactivates (Some json.now))
        (Some (core_proofs_of (Some json.now))) result }
{
    if !has_proof_form(json, &["recover", "deactivate"]) {
        return Err(FileRefused::Rejected(ProofRule::Q3));
    }
    if !(has_proofs(json, "recover", recovers) && has_proofs(json, "deactivate", deactivates)) {
        return Err(FileRefused::Rejected(ProofRule::Q4));
    }
    // In the order of the canonical text.
    let mut guess = Guess::new();
    let deactivates = signed_of(alloc, json, "deactivate", file, &mut guess)?;
    let recovers = signed_of(alloc, json, "recover", file, &mut guess)?;
    Ok(CoreProofs {
        recovers,
        deactivates,
    })
}

// The same, from the JSON of the file, in which the texts are looked for.
fn updates_in(
    alloc: Global,
    json: &Scanned<'_>,
    file: &Shared<Bytes>,
    updates: usize,
) -> Result<List<KeptText>, ProofRefused>
    ensures { Answers (provisional_proof_json_rules updates (Some json.now))
        (Some (signed_of (codes "update") (Some json.now))) result }
{
    if !has_proof_form(json, &["update"]) {
        return Err(FileRefused::Rejected(ProofRule::Q3));
    }
    if !has_proofs(json, "update", updates) {
        return Err(FileRefused::Rejected(ProofRule::Q4));
    }
    Ok(signed_of(alloc, json, "update", file, &mut Guess::new())?)
}

// ---- the form

#[tactic(auto, unfolding(crate::specs::ProofFiles::has_proof_form))]
fn has_proof_form(file: &Scanned<'_>, kinds: &[&str]) -> bool
    ensures { result ≡ has_proof_form (map (λ n. n.now) kinds.now) (Some file.now) }
{
    match file.only_member("operations") {
        Some(operations) => operations.is_object_of_lists(kinds) && are_signed(file, kinds),
        None => false,
    }
}

// Whether each entry of each kind has its form.
fn are_signed(file: &Scanned<'_>, kinds: &[&str]) -> bool
    ensures { result ≡ list_all (λ kind. each_is signed_in (proofs_of kind (Some file.now))) (map (λ n. n.now) kinds.now) }
{
    'kinds: for kind in kinds {
        if !is_each_signed(proofs_of(file, kind)) {
            return false;
        }
    }
    true
}

fn is_each_signed(entries: Entries<'_>) -> bool
    ensures { result ≡ each_is signed_in entries.entry }
{
    let mut left = entries;
    'entries: while let Some(entry) = left.next() {
        if !is_signed(&entry) {
            return false;
        }
    }
    true
}

fn is_signed(entry: &Scanned<'_>) -> bool
    ensures { result ≡ is_some (signed_in entry.now) }
{
    match entry.only_member("signedData") {
        Some(signed) => signed.is_text(),
        None => false,
    }
}

fn proofs_of<'a>(file: &Scanned<'a>, kind: &str) -> Entries<'a>
    ensures { result ≡ proofs_of kind.now (Some file.now) }
{
    match file.member("operations") {
        Some(operations) => entries_in(operations.member(kind)),
        None => entries_in(None),
    }
}

#[tactic(auto, unfolding(crate::specs::ProofFiles::has_proofs))]
fn has_proofs(file: &Scanned<'_>, kind: &str, wanted: usize) -> bool
    ensures { result ≡ has_proofs kind.now wanted (Some file.now) }
{
    proofs_of(file, kind).count() == wanted
}

// ---- the texts

#[tactic(auto, unfolding(crate::specs::ProofFiles::signed_of))]
fn signed_of(
    alloc: Global,
    json: &Scanned<'_>,
    kind: &str,
    file: &Shared<Bytes>,
    guess: &mut Guess,
) -> Result<List<KeptText>, WantOfMemory>
    ensures { IfOk result (λ texts. texts ≡ signed_of kind.now (Some json.now)) }
{
    guess.open(kind);
    texts_of(alloc, proofs_of(json, kind), file, guess)
}

// The signed texts of these entries, looked for in the file.
fn texts_of(
    alloc: Global,
    entries: Entries<'_>,
    file: &Shared<Bytes>,
    guess: &mut Guess,
) -> Result<List<KeptText>, WantOfMemory>
    ensures { IfOk result (λ texts. texts ≡ filter_map signed_in entries.entry) }
{
    let mut texts = List::new(alloc);
    let mut left = entries;
    'entries: while let Some(entry) = left.next() {
        if let Some(text) = signed_in(alloc, &entry, file, guess.text())? {
            guess.pass(&text);
            texts.push(alloc, text)?;
        }
    }
    Ok(texts)
}

fn signed_in(
    alloc: Global,
    entry: &Scanned<'_>,
    file: &Shared<Bytes>,
    at: usize,
) -> Result<Option<KeptText>, WantOfMemory>
    ensures { IfOk result (λ signed. signed ≡ signed_in entry.now) }
{
    match entry.only_member("signedData") {
        Some(signed) => signed.text_within(alloc, file, at),
        None => Ok(None),
    }
}

/// The canonical text of the core proof file of these signed texts. Empty lists are left out, and
/// an `operations` without lists.
pub fn write_core_proof(alloc: Global, proofs: &CoreProofs) -> Result<Bytes, WantOfMemory>
    ensures text { IfOk result (λ text. text ≡ canonical (core_proof_json proofs.now)) }
    // If the text fails no rule, it is read as the same signed texts.
    ensures read { IfOk result (λ text. (limits : ParamsValue) (recovers deactivates : ℕ) → first_failing_core_proof_rule limits recovers deactivates text ≡ None
        → core_proofs_of (json_in text) ≡ proofs.now) }
{
    let json = core_proof_json(alloc, proofs)?;
    Ok(write(alloc, &json)?)
}

/// The canonical text of the provisional proof file of these signed texts. Without texts
/// `operations` is left out.
pub fn write_provisional_proof(alloc: Global, proofs: &[KeptText]) -> Result<Bytes, WantOfMemory>
    ensures text { IfOk result (λ text. text ≡ canonical (provisional_proof_json proofs.now)) }
    // If the text fails no rule, it is read as the same signed texts.
    ensures read { IfOk result (λ text. (limits : ParamsValue) (updates : ℕ) → first_failing_provisional_proof_rule limits updates text ≡ None
        → signed_of (codes "update") (json_in text) ≡ proofs.now) }
{
    let json = provisional_proof_json(alloc, proofs)?;
    Ok(write(alloc, &json)?)
}

fn core_proof_json(alloc: Global, proofs: &CoreProofs) -> Result<Json, WantOfMemory>
    ensures { IfOk result (λ json. plain json ≡ core_proof_json proofs.now) }
{
    let mut operations = Object::new(alloc);
    let recovers = signed_entries(alloc, proofs.recovers.as_slice())?;
    operations.set_some(alloc, "recover", some_list(recovers))?;
    let deactivates = signed_entries(alloc, proofs.deactivates.as_slice())?;
    operations.set_some(alloc, "deactivate", some_list(deactivates))?;
    proof_json(alloc, operations)
}

fn provisional_proof_json(alloc: Global, proofs: &[KeptText]) -> Result<Json, WantOfMemory>
    ensures { IfOk result (λ json. plain json ≡ provisional_proof_json proofs.now) }
{
    let mut operations = Object::new(alloc);
    let updates = signed_entries(alloc, proofs)?;
    operations.set_some(alloc, "update", some_list(updates))?;
    proof_json(alloc, operations)
}

fn proof_json(alloc: Global, operations: Object) -> Result<Json, WantOfMemory>
    ensures { IfOk result (λ json. plain json ≡ proof_json (plain_members operations)) }
{
    let mut file = Object::new(alloc);
    file.set_some(alloc, "operations", some_object(operations))?;
    Ok(Json::Object(file))
}

fn signed_entries(alloc: Global, texts: &[KeptText]) -> Result<List<Json>, WantOfMemory>
    ensures { IfOk result (λ entries. map plain entries ≡ map signed_json texts.now) }
{
    let mut entries = List::new(alloc);
    'texts: for text in texts {
        entries.push(alloc, signed_json(alloc, text)?)?;
    }
    Ok(entries)
}

fn signed_json(alloc: Global, text: &KeptText) -> Result<Json, WantOfMemory>
    ensures { IfOk result (λ json. plain json ≡ signed_json text.now) }
{
    let mut entry = Object::new(alloc);
    let text = Text::from_text(alloc, text.as_str())?;
    entry.set(alloc, "signedData", Json::Text(text))?;
    Ok(Json::Object(entry))
}
