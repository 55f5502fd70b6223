//! What holds of the command that words spell.
ghost use Rattle.ro_words.specs.Commands.{Asked, AskedAudit, AuditFits, Fits, Spelling, asked_of, audit_of, audit_spellings, command_of, spelling_of, spellings, to_run, usual_audit, usual_run};
ghost use Rattle.ro_words.specs.Uses.{Text, Use, is_argument, takes_value, uses_from};
ghost use Rattle.std.specs.Prelude.{◌≡◌, ◌++◌, ◌∷◌, [], List, None, Some, codes, true};

/// `run EXE` alone asks for the usual run.
#[tactic(auto, using(crate::proofs::Lawful::usual_law))]
pub fn run_alone_is_usual()
    ensures { (program exe : Text) → is_argument exe ≡ true → command_of (program ∷ codes "run" ∷ exe ∷ []) ≡ Some (to_run (usual_run exe)) }
{}

/// `audit EXE --journal F` alone asks for the audit of a journal of that run.
#[tactic(auto, using(crate::proofs::Lawful::usual_law))]
pub fn audit_alone_is_usual()
    ensures { (program exe journal : Text) → is_argument exe ≡ true → is_argument journal ≡ true → audit_of (program ∷ codes "audit" ∷ exe ∷ codes "--journal" ∷ journal ∷ []) ≡ Some (usual_audit exe journal) }
{}

/// Words that spell an audit spell no other command.
pub fn commands_are_apart()
    ensures { (words : List Text) (asked : AskedAudit) → audit_of words ≡ Some asked → command_of words ≡ None }
{}

/// Whatever the words are, the numbers of their command lie in their ranges.
pub fn numbers_lie_in_range()
    ensures command { (words : List Text) (asked : Asked) → command_of words ≡ Some asked → Fits asked }
    ensures audit { (words : List Text) (asked : AskedAudit) → audit_of words ≡ Some asked → AuditFits asked }
{}

/// Options may stand in any order, and before and behind the executable.
#[tactic(auto, using(crate::proofs::Lawful::order_law))]
pub fn order_is_free()
    ensures command { (s : Spelling Asked) (before : List Use) (one other : Use) (behind : List Use) → asked_of s (before ++ one ∷ other ∷ behind) ≡ asked_of s (before ++ other ∷ one ∷ behind) }
    ensures audit { (s : Spelling AskedAudit) (before : List Use) (one other : Use) (behind : List Use) → asked_of s (before ++ one ∷ other ∷ behind) ≡ asked_of s (before ++ other ∷ one ∷ behind) }
{}

/// `--name=V` is `--name V` (45 is `-`, and 61 is `=`).
pub fn spellings_agree()
    ensures command { (command : Text) (s : Spelling Asked) (name value : Text) (words left : List Text) → spelling_of spellings command ≡ Some s → takes_value s.syntax name ≡ true → is_argument value ≡ true
        → uses_from s.syntax ((45 ∷ 45 ∷ (name ++ 61 ∷ value)) ∷ words) left None ≡ uses_from s.syntax ((45 ∷ 45 ∷ name) ∷ value ∷ words) left None }
    ensures audit { (command : Text) (s : Spelling AskedAudit) (name value : Text) (words left : List Text) → spelling_of audit_spellings command ≡ Some s → takes_value s.syntax name ≡ true → is_argument value ≡ true
        → uses_from s.syntax ((45 ∷ 45 ∷ (name ++ 61 ∷ value)) ∷ words) left None ≡ uses_from s.syntax ((45 ∷ 45 ∷ name) ∷ value ∷ words) left None }
{}
