//! Laws of certificates. Each function does nothing: its contract is the law.
ghost use Rattle.std.specs.Prelude.{ℕ, List, ◌≡◌, ◌↔◌, if◌then◌else◌};
ghost use Rattle.cg_form.specs.Game.{Game};
ghost use Rattle.cg_form.specs.Order.{Le};
ghost use Rattle.cg_cert.specs.Certificate.{answered, settled};
ghost use Rattle.cg_cert.specs.First.{first_answers, first_proof};
ghost use Rattle.cg_cert.specs.Pairs.{Pair, both_numbers, moves, pair};
ghost use Rattle.cg_cert.specs.Proves.{IsProofOf, Proves};

/// A pair (G, H) has a proof exactly if G >= H.
pub fn l12()
    ensures { (g h : Game) → ((bytes : List ℕ) × IsProofOf g h bytes) ↔ Le h g }
{}

/// Where G >= H, the certificate in which each answer is the first that serves is a proof; it is
/// settled where both games are numbers, and else has the first answer to each of Right's moves.
pub fn first()
    ensures proves { (g h : Game) → Le h g → Proves (first_proof (pair g h)) (pair g h) }
    ensures options { (m : Pair) → first_proof m
        ≡ (if both_numbers m then settled else answered (first_answers first_proof (moves m))) }
{}
