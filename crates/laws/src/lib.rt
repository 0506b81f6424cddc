// Laws of numbers and lists that several layers cite and the kit does not have. No code, and nothing is promised of any. specs/ has lists
// and sums by a function of the place (Tab) and what a test tells (Decides); proofs/ turns one computed test into a rule for every number
// below a bound (Every), has the laws of Tab, deals places out to words in turn (Spread), and fills a list from the front (Fill).
// Inner: definitions and proofs of every layer cite it. It asks nothing.
#![tactic(auto)]
