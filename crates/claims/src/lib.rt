// What the documents say of whole stretches of cycles, and no function and no other law rests on: when TM is set after STM, that strings
// of loads hold together, and that a fall of INT within one is kept and accepted behind it. It stands above `laws`, so that a change of
// these claims proves nothing else again. It holds no code. It may not know how anything is written, only the definitions of `runs` and
// `upd546` and the laws about them.
#![tactic(auto)]
