// Theory only: the definitions are in specs/, the theorems in proofs/. No function stands here.
#![tactic(auto)]
