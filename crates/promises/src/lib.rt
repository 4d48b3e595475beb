// The demands over the lent bytes: theorems alone, of the contracts of the cache and of START.
#![tactic(auto)]
