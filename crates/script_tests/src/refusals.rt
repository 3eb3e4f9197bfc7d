// Transcripts that begin after the set-up (cases.rt has the form); the number is that of the refusal.

// Every refusal that needs no full table, and what comes close to one.
pub const REFUSALS: &str = "\
# every answer, and what a transaction sees of its own
begin,ser|begin,3
read,3,10|read,5
read,3,11|read,absent
insert,3,10,1|insert,present
insert,3,11,-1|insert,done
insert,3,11,2|insert,present
update,3,12,1|update,absent
update,3,11,-2|update,done
read,3,11|read,-2
update,3,10,50|update,done
read,3,10|read,50
delete,3,12|delete,absent
delete,3,20|delete,done
delete,3,20|delete,absent
read,3,20|read,absent
insert,3,20,70|insert,done
scan,3,0,4294967295|scan,3
|row,10,50
|row,11,-2
|row,20,70
scan,3,11,20|scan,2
|row,11,-2
|row,20,70
scan,3,12,19|scan,0
delete,3,11|delete,done
read,3,11|read,absent
insert,3,11,4|insert,done
scan,3,11,11|scan,1
|row,11,4
sweep|sweep,0
tally|tally,1,0
prepare,3|prepare,4
validate,3|validate,done
commit,3|commit,done
finish,3|finish,done
sweep|sweep,3
tally|tally,2,0
begin,snap|begin,5
scan,5,0,4294967295|scan,3
|row,10,50
|row,11,4
|row,20,70

# an abort takes all back
begin,ser|begin,3
update,3,10,6|update,done
delete,3,20|delete,done
insert,3,30,1|insert,done
abort,3|abort,done
begin,snap|begin,4
scan,4,0,100|scan,2
|row,10,5
|row,20,7
insert,4,30,2|insert,done
update,4,10,8|update,done
delete,4,20|delete,done
finish,3|finish,done
scan,4,0,100|scan,2
|row,10,8
|row,30,2
sweep|sweep,0
prepare,4|prepare,5
validate,4|validate,done
commit,4|commit,done
finish,4|finish,done
sweep|sweep,4
sweep|sweep,0
begin,ser|begin,6
scan,6,0,100|scan,2
|row,10,8
|row,30,2

# a snapshot beside writers
begin,snap|begin,3
begin,ser|begin,4
update,4,10,6|update,done
delete,4,20|delete,done
insert,4,15,1|insert,done
prepare,4|prepare,5
validate,4|validate,done
commit,4|commit,done
finish,4|finish,done
scan,3,0,100|scan,2
|row,10,5
|row,20,7
sweep|sweep,0
update,3,20,1|update,refused,8
finish,3|finish,done
begin,snap|begin,6
scan,6,0,100|scan,2
|row,10,6
|row,15,1
sweep|sweep,2

# 3: no transaction has that name
read,1,10|read,refused,3
scan,2,1,0|scan,refused,3
insert,3,10,1|insert,refused,3
update,0,10,1|update,refused,3
delete,18446744073709551615,10|delete,refused,3
prepare,3|prepare,refused,3
validate,3|validate,refused,3
commit,3|commit,refused,3
abort,3|abort,refused,3
finish,3|finish,refused,3
begin,snap|begin,3
read,3,10|read,5
begin,ser|begin,4
prepare,4|prepare,5
read,5,10|read,refused,3

# 4: while Active
begin,ser|begin,3
validate,3|validate,refused,4
commit,3|commit,refused,4
finish,3|finish,refused,4
read,3,10|read,5

# 4: while Preparing
begin,ser|begin,3
prepare,3|prepare,4
read,3,10|read,refused,4
scan,3,0,1|scan,refused,4
scan,3,1,0|scan,refused,4
insert,3,1,1|insert,refused,4
update,3,10,1|update,refused,4
delete,3,10|delete,refused,4
prepare,3|prepare,refused,4
commit,3|commit,refused,4
finish,3|finish,refused,4
validate,3|validate,done

# 4: once Validated
begin,snap|begin,3
prepare,3|prepare,4
validate,3|validate,done
read,3,10|read,refused,4
scan,3,0,1|scan,refused,4
insert,3,1,1|insert,refused,4
update,3,10,1|update,refused,4
delete,3,10|delete,refused,4
prepare,3|prepare,refused,4
validate,3|validate,refused,4
finish,3|finish,refused,4
commit,3|commit,done

# 4: once Committed
begin,ser|begin,3
prepare,3|prepare,4
validate,3|validate,done
commit,3|commit,done
read,3,10|read,refused,4
scan,3,0,1|scan,refused,4
insert,3,1,1|insert,refused,4
update,3,10,1|update,refused,4
delete,3,10|delete,refused,4
prepare,3|prepare,refused,4
validate,3|validate,refused,4
commit,3|commit,refused,4
abort,3|abort,refused,4
finish,3|finish,done
finish,3|finish,refused,3

# 4: once Aborted
begin,ser|begin,3
abort,3|abort,done
read,3,10|read,refused,4
scan,3,0,1|scan,refused,4
insert,3,1,1|insert,refused,4
update,3,10,1|update,refused,4
delete,3,10|delete,refused,4
prepare,3|prepare,refused,4
validate,3|validate,refused,4
commit,3|commit,refused,4
abort,3|abort,refused,4
finish,3|finish,done
finish,3|finish,refused,3

# abort from Preparing and from Validated
begin,ser|begin,3
begin,ser|begin,4
update,3,10,6|update,done
update,4,20,8|update,done
prepare,3|prepare,5
prepare,4|prepare,6
validate,4|validate,done
abort,3|abort,done
abort,4|abort,done
tally|tally,1,2
finish,3|finish,done
finish,4|finish,done
begin,snap|begin,7
scan,7,0,100|scan,2
|row,10,5
|row,20,7

# 5: a doomed one that was Active
begin,ser|begin,3
update,3,10,6|update,done
prepare,3|prepare,4
begin,ser|begin,5
read,5,10|read,6
abort,3|abort,done
read,5,10|read,refused,5
scan,5,1,0|scan,refused,5
insert,5,1,1|insert,refused,5
update,5,10,1|update,refused,5
delete,5,10|delete,refused,5
prepare,5|prepare,refused,5
validate,5|validate,refused,4
commit,5|commit,refused,4
finish,5|finish,refused,4
tally|tally,1,1
abort,5|abort,done
tally|tally,1,2
finish,5|finish,done

# 5: doomed while Preparing
begin,ser|begin,3
update,3,10,6|update,done
prepare,3|prepare,4
begin,ser|begin,5
read,5,10|read,6
prepare,5|prepare,6
abort,3|abort,done
validate,5|validate,refused,5
commit,5|commit,refused,4
prepare,5|prepare,refused,4
abort,5|abort,done
abort,5|abort,refused,4

# 5: doomed through another
begin,ser|begin,3
update,3,10,6|update,done
prepare,3|prepare,4
begin,ser|begin,5
update,5,10,8|update,done
prepare,5|prepare,6
begin,snap|begin,7
read,7,10|read,8
prepare,7|prepare,8
validate,7|validate,done
commit,7|commit,refused,16,2
validate,5|validate,done
begin,ser|begin,9
read,9,20|read,7
abort,3|abort,done
commit,5|commit,refused,5
commit,7|commit,refused,5
prepare,9|prepare,10
update,9,10,1|update,refused,4
abort,7|abort,done
abort,5|abort,done
finish,7|finish,done
finish,5|finish,done
finish,3|finish,done
begin,ser|begin,11
scan,11,0,100|scan,2
|row,10,5
|row,20,7
tally|tally,1,3

# what a doomed one left is free to others
begin,ser|begin,3
update,3,10,6|update,done
prepare,3|prepare,4
begin,ser|begin,5
update,5,10,8|update,done
delete,5,20|delete,done
insert,5,30,1|insert,done
abort,3|abort,done
begin,ser|begin,6
update,6,10,9|update,done
delete,6,20|delete,done
insert,6,30,2|insert,done
abort,5|abort,done
finish,5|finish,done
finish,3|finish,done
prepare,6|prepare,7
validate,6|validate,done
commit,6|commit,done
finish,6|finish,done
begin,snap|begin,8
scan,8,0,100|scan,2
|row,10,9
|row,30,2

# 6: the lower key is above the upper
begin,ser|begin,3
scan,3,11,10|scan,refused,6
scan,3,4294967295,0|scan,refused,6
scan,3,10,10|scan,1
|row,10,5
scan,3,0,4294967295|scan,2
|row,10,5
|row,20,7

# 8: insert beside another that is Active
begin,ser|begin,3
begin,ser|begin,4
insert,3,15,1|insert,done
insert,4,15,2|insert,refused,8
abort,4|abort,refused,4
finish,4|finish,done
read,3,15|read,1

# 8: insert beside another prepared later than the begin
begin,ser|begin,3
begin,ser|begin,4
insert,3,15,1|insert,done
prepare,3|prepare,5
insert,4,15,2|insert,refused,8
tally|tally,1,1

# 8: insert beside another committed later than the begin
begin,ser|begin,3
begin,ser|begin,4
begin,ser|begin,5
insert,3,15,1|insert,done
prepare,3|prepare,6
validate,3|validate,done
commit,3|commit,done
insert,4,15,2|insert,refused,8
finish,3|finish,done
insert,5,15,2|insert,refused,8
tally|tally,2,2

# an insert and a delete by one are no conflict later
begin,ser|begin,3
begin,ser|begin,4
insert,3,15,1|insert,done
delete,3,15|delete,done
prepare,3|prepare,5
validate,3|validate,done
commit,3|commit,done
finish,3|finish,done
insert,4,15,2|insert,done
prepare,4|prepare,6
validate,4|validate,done
commit,4|commit,done

# 8: a delete and an update, a delete and a delete
begin,ser|begin,3
begin,ser|begin,4
begin,ser|begin,5
delete,3,10|delete,done
update,4,10,6|update,refused,8
delete,5,10|delete,refused,8
prepare,3|prepare,6
validate,3|validate,done
commit,3|commit,done
begin,ser|begin,7
update,7,10,1|update,absent
insert,7,10,2|insert,done
prepare,7|prepare,8
validate,7|validate,done
commit,7|commit,done
tally|tally,3,2

# 8: an update of what was changed since
begin,ser|begin,3
begin,snap|begin,4
update,4,10,6|update,done
prepare,4|prepare,5
validate,4|validate,done
commit,4|commit,done
update,3,10,1|update,refused,8
begin,snap|begin,6
begin,ser|begin,7
update,7,20,1|update,done
prepare,7|prepare,8
validate,7|validate,done
commit,7|commit,done
finish,7|finish,done
delete,6,20|delete,refused,8

# 8: an update of what a prepared one has changed
begin,ser|begin,3
begin,ser|begin,4
update,3,10,6|update,done
prepare,3|prepare,5
update,4,10,8|update,refused,8
begin,ser|begin,6
update,6,10,9|update,done
read,6,10|read,9
prepare,6|prepare,7
validate,6|validate,done
commit,6|commit,refused,16,1

# 15: a read version was changed
begin,ser|begin,3
begin,ser|begin,4
read,3,10|read,5
update,4,10,6|update,done
prepare,4|prepare,5
validate,4|validate,done
commit,4|commit,done
finish,4|finish,done
prepare,3|prepare,6
validate,3|validate,refused,15
tally|tally,2,1
abort,3|abort,refused,4
finish,3|finish,done

# 15: a version that an insert met was deleted
begin,ser|begin,3
begin,ser|begin,4
insert,3,10,1|insert,present
delete,4,10|delete,done
prepare,4|prepare,5
validate,4|validate,done
commit,4|commit,done
prepare,3|prepare,6
validate,3|validate,refused,15

# 15: an update and a delete that found nothing
begin,ser|begin,3
begin,ser|begin,4
begin,ser|begin,5
update,3,15,1|update,absent
delete,4,16|delete,absent
insert,5,15,1|insert,done
insert,5,16,1|insert,done
prepare,5|prepare,6
validate,5|validate,done
commit,5|commit,done
prepare,3|prepare,7
validate,3|validate,refused,15
prepare,4|prepare,8
validate,4|validate,refused,15
tally|tally,2,2

# 15: a row of a scan was changed
begin,ser|begin,3
begin,ser|begin,4
scan,3,0,100|scan,2
|row,10,5
|row,20,7
update,4,20,1|update,done
prepare,4|prepare,5
validate,4|validate,done
commit,4|commit,done
prepare,3|prepare,6
validate,3|validate,refused,15

# 15: those that wait are doomed
begin,ser|begin,3
begin,ser|begin,4
read,3,10|read,5
update,3,20,8|update,done
update,4,10,6|update,done
prepare,4|prepare,5
validate,4|validate,done
commit,4|commit,done
prepare,3|prepare,6
begin,ser|begin,7
read,7,20|read,8
validate,3|validate,refused,15
prepare,7|prepare,refused,5
read,7,10|read,refused,5
abort,7|abort,done
tally|tally,2,2

# a change outside the range passes
begin,ser|begin,3
begin,ser|begin,4
scan,3,11,19|scan,0
update,4,20,1|update,done
insert,4,9,1|insert,done
prepare,4|prepare,5
validate,4|validate,done
commit,4|commit,done
prepare,3|prepare,6
validate,3|validate,done
commit,3|commit,done

# a change that ended before it was read passes
begin,ser|begin,3
update,3,10,6|update,done
prepare,3|prepare,4
validate,3|validate,done
commit,3|commit,done
begin,ser|begin,5
read,5,10|read,6
finish,3|finish,done
prepare,5|prepare,6
validate,5|validate,done
commit,5|commit,done

# its own changes pass
begin,ser|begin,3
scan,3,0,100|scan,2
|row,10,5
|row,20,7
read,3,10|read,5
read,3,15|read,absent
update,3,10,6|update,done
insert,3,15,1|insert,done
delete,3,20|delete,done
prepare,3|prepare,4
validate,3|validate,done
commit,3|commit,done

# an aborted change passes
begin,ser|begin,3
begin,ser|begin,4
scan,3,0,100|scan,2
|row,10,5
|row,20,7
update,4,10,6|update,done
insert,4,15,1|insert,done
abort,4|abort,done
finish,4|finish,done
prepare,3|prepare,5
validate,3|validate,done
commit,3|commit,done

# 16: two, then one
begin,ser|begin,3
begin,ser|begin,4
update,3,10,6|update,done
update,4,20,8|update,done
prepare,3|prepare,5
prepare,4|prepare,6
begin,ser|begin,7
scan,7,0,100|scan,2
|row,10,6
|row,20,8
prepare,7|prepare,8
validate,7|validate,done
commit,7|commit,refused,16,2
validate,4|validate,done
commit,4|commit,done
commit,7|commit,refused,16,1
validate,3|validate,done
commit,3|commit,done
commit,7|commit,done
finish,3|finish,done
finish,4|finish,done
finish,7|finish,done
sweep|sweep,2
tally|tally,4,0

# 16: a wait that the validation finds
begin,ser|begin,3
begin,ser|begin,4
scan,3,11,19|scan,0
insert,4,15,1|insert,done
prepare,4|prepare,5
validate,4|validate,done
commit,4|commit,done
finish,4|finish,done
begin,ser|begin,6
delete,6,15|delete,done
prepare,6|prepare,7
prepare,3|prepare,8
validate,3|validate,done
commit,3|commit,refused,16,1
validate,6|validate,done
commit,6|commit,done
commit,3|commit,done
finish,3|finish,done
finish,6|finish,done
sweep|sweep,1

# 16: a wait for a deletion
begin,ser|begin,3
delete,3,10|delete,done
prepare,3|prepare,4
begin,ser|begin,5
read,5,10|read,absent
insert,5,10,1|insert,done
prepare,5|prepare,6
validate,5|validate,done
commit,5|commit,refused,16,1
validate,3|validate,done
commit,3|commit,done
commit,5|commit,done
finish,5|finish,done
finish,3|finish,done
sweep|sweep,1
begin,snap|begin,7
read,7,10|read,1

# a snapshot transaction waits too
begin,snap|begin,3
update,3,10,6|update,done
prepare,3|prepare,4
begin,snap|begin,5
read,5,10|read,6
read,5,20|read,7
prepare,5|prepare,6
validate,5|validate,done
commit,5|commit,refused,16,1
validate,3|validate,done
commit,3|commit,done
commit,5|commit,done
";
