// What the host may count on, from the verdict and the state test: see specs/.
#![tactic(auto)]
