// Document 01's starred field examples, proved about the definitions in one table: specs/Table.antt. There is no code here.
#![tactic(auto)]
