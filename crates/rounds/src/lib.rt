// Rounds of a bank of panels, of the chip of every sheet: each panel is on its own, and over every list of rounds each ends as one unbroken
// run ends and keeps its waits. It holds no code. It may not know how anything is written, nor how a theorem is proved: only definitions and
// theorems.
#![tactic(auto)]
