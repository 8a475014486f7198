// No code. specs/rfc has the grammars of the RFCs and specs/dialects those of the three dialects, production by production; specs/
// has what the rules require of a file beside its grammar. The theorems of proofs/ say that the automata of model accept exactly the
// texts, numbers, strings and files that are derived, with the same cells, contents and places, and that a file is accepted exactly
// when it is derived and satisfies the rules. If an equation of model's specs/rules/Cell.antt, File.antt or Decode.antt changes,
// prove them again.
#![tactic(auto)]
