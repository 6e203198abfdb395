// What a truth value answers. There is no code here, and it stands on nothing: specs/ has the definition and proofs/ its laws.
#![tactic(auto)]
