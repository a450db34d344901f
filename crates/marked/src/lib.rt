// No code: the marked plans of the documents, stated in specs/ and shown of the rules by computation in proofs/.
#![tactic(auto)]
