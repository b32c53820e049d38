// Laws that more than one crate cites: of definitions in specs/ and in crates/rules, in the file of the same name in proofs/.
// There is no code here.
#![tactic(auto)]
