// The numbers below a bound and lists of numbers, for the words of marks and for covers alike: their definitions are in specs/, with one example
// of each, and their laws in proofs/, with the laws of tests and of lists that are written from the front. There is no code here.
#![tactic(auto)]
