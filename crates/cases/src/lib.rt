// Cases of the rules, proved of the definitions by computation. All of it stands in specs/.
#![tactic(auto)]
