// What holds of all objects.
ghost use Rattle.objects.specs.Laws.{Building, OneMap};
ghost use Rattle.objects.specs.Rules.{OneObject};

// Two valid objects with the same bytes are equal.
pub fn one_object()
    ensures { OneObject }
{}

// Each map has one writing as a checkpoint's table, and is the same map when it is read again.
pub fn one_map()
    ensures { OneMap }
{}

// What is built is exactly the bytes of the object, which is valid.
pub fn built_objects_stand()
    ensures { Building }
{}
