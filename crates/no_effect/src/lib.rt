// PROMISE. DEBUG and MROB have no effect: boards that differ in these two bits alone answer every call the same, and go on
// differing in them alone. Said of the definitions, so it holds of any code that meets them. What is promised is specs/Claims.
#![tactic(auto)]
