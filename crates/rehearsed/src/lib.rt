// What the rehearsal's rule column means: theorems alone, of the definitions of the rules' tests and of the machine's rules.
#![tactic(auto)]
