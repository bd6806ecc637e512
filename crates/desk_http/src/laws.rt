//! The law of exchanges.
//! Its body is empty: the contract is the law.

ghost use Rattle.std.specs.Prelude.{ℕ, List, Option, Some, Result};
ghost use Rattle.http_bytes.specs.Found.{HadBytes};
ghost use Rattle.http_answers.specs.Stored.{Stored};
ghost use Rattle.store_contract.specs.Store.{Faults};
ghost use Rattle.desk_http.specs.Exchange.{IsServed};
ghost use Rattle.desk_http.specs.declared.serve.Served.{Served};
ghost use Rattle.desk_http.specs.declared.serve.ServeFault.{ServeFault};

/// What serving one connection leaves and has written is that of some input, whatever the reader:
/// of its own, where its bytes are known.
pub fn what_was_served_has_an_input()
    ensures { (known : Option (List ℕ)) (old new : Stored) (n0 n1 : Faults) (c0 c1 : Option (List ℕ))
        (result : Result Served ServeFault) → IsServed known old new n0 n1 c0 c1 result
        → HadBytes known (λ input. IsServed (Some input) old new n0 n1 c0 c1 result) }
{}
