// Laws of the greedy build: of the rules alone, without the code that follows them. There is no code here.
#![tactic(auto)]
